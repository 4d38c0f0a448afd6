// Checks the pools that the lines of its input spell, and looks every string up.
// A line is six words in hexadecimal, `-` for none: front, unit, times (two bytes), end, ID, field. The pool's data is the front, the unit so many times, and the end.
// For each it writes the result, each string with its place and length (of a long pool the first four and the last), `*` behind one that is
// the ID, the field's bytes behind its first, and the first four places and the last of the index, `-` for one that is as it was.
// The stored output comes from tests/make/pool_cases.py.
ghost use Rattle.std.specs.Prelude.{◌≡◌, ◌<◌, length};
ghost use Rattle.pool.specs.Pool.{strings_of};
ghost use Rattle.pool.specs.Index.{Ready};

use crate::{cases, hex};
use std::io::Write;
use strings::Holder;

fn show_string<'a, W: Write>(
    to: &mut W,
    d: &'a [u8],
    field: &'a [u8],
    starts: &[u32],
    k: usize,
    id: &[u8],
)
    requires { Ready d.now starts.now × (k < length (strings_of d.now)) }
{
    let s = strings::span_by(d, starts, k);
    cases::say(to, b" ");
    cases::say_number(to, s.at as u64);
    cases::say(to, b":");
    cases::say_number(to, s.len as u64);
    cases::say(to, b":");
    hex::print(to, strings::text_of(d, field, Holder::InPool(s.at, s.len)));
    if strings::has_id(d, starts, k, id) {
        cases::say(to, b"*");
    }
}

fn show_strings<'a, W: Write>(
    to: &mut W,
    d: &'a [u8],
    field: &'a [u8],
    starts: &[u32],
    n: usize,
    id: &[u8],
)
    requires { Ready d.now starts.now × (n ≡ length (strings_of d.now)) }
{
    for k in 0..hex::least(n, 4) {
        show_string(to, d, field, starts, k, id);
    }
    if 4 < n {
        show_string(to, d, field, starts, n - 1, id);
    }
}

// The field's bytes behind its first.
fn show_field<'a, W: Write>(to: &mut W, d: &'a [u8], field: &'a [u8]) {
    if field.len() == 0 {
        return;
    }
    cases::say(to, b" ");
    hex::print(
        to,
        strings::text_of(d, field, Holder::InField(1, field.len() - 1)),
    );
}

fn show_place<W: Write>(to: &mut W, p: u32) {
    if p == 4294967295 {
        cases::say(to, b" -");
        return;
    }
    cases::say(to, b" ");
    cases::say_number(to, p as u64);
}

fn show_index<W: Write>(to: &mut W, starts: &[u32; 8192]) {
    cases::say(to, b" |");
    show_place(to, starts[0]);
    show_place(to, starts[1]);
    show_place(to, starts[2]);
    show_place(to, starts[3]);
    show_place(to, starts[8191]);
}

fn run_pool<'a, W: Write>(to: &mut W, d: &'a [u8], field: &'a [u8], id: &[u8]) {
    let mut starts = [4294967295u32; 8192];
    let c = pool::check_pool(d, &mut starts);
    match c {
        Err(m) => {
            cases::say(to, b"refused ");
            cases::say_number(to, m.number() as u64);
            show_index(to, &starts);
        }
        Ok(n) => {
            cases::say(to, b"strings ");
            cases::say_number(to, n as u64);
            show_strings(to, d, field, &starts, n, id);
            show_field(to, d, field);
            show_index(to, &starts);
        }
    }
    cases::say(to, b"\n");
}

pub fn run_line<W: Write>(to: &mut W, line: &[u8], buf: &mut [u8]) {
    let mut id = [0u8; 2048];
    let mut field = [0u8; 2048];
    let n = cases::build(line, 0, buf);
    let i = hex::word(line, 4, &mut id);
    let f = hex::word(line, 5, &mut field);
    run_pool(to, &buf[..n], &field[..f], &id[..i]);
}
