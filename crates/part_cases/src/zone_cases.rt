// Checks the zones that the lines of its input spell, and looks instants up in them.
// A line is `INSTANT COUNT DATA` or `INSTANT COUNT FRONT UNIT TIMES END`, where the data is the front, the unit so many times, and the end.
// The instant is in ticks since 1970, `-` for none; the pool's count and the times, two bytes each, and the data are in hexadecimal.
// For each it writes the check's number, the ID's pool number behind a 0, and with an instant the refusal's number or wall offset, savings,
// standard offset, the name's pool number, start and end.
// The stored output comes from tests/make/zone_cases.py.
use crate::{cases, hex};
use base::{END, FIRST, Refusal};
use std::io::Write;
use zones::{Edition, Found};

// An offset, in milliseconds.
fn offset<W: Write>(to: &mut W, sum: u64) {
    cases::say(to, b" ");
    cases::say_difference(to, sum, 86400000);
}

fn show_verdict<W: Write>(to: &mut W, v: Result<u64, Refusal>) {
    match v {
        Ok(id) => {
            cases::say(to, b"0 ");
            cases::say_number(to, id);
        }
        Err(k) => cases::say_number(to, k.number() as u64),
    }
}

fn show_answer<W: Write>(to: &mut W, a: Result<Found, Refusal>) {
    match a {
        Ok(x) => show_found(to, x),
        Err(k) => {
            cases::say(to, b" ");
            cases::say_number(to, k.number() as u64);
        }
    }
}

fn show_found<W: Write>(to: &mut W, x: Found) {
    offset(to, x.wall);
    offset(to, x.savings);
    cases::say(to, b" ");
    cases::say_difference(to, x.wall, x.savings);
    cases::say(to, b" ");
    cases::say_number(to, x.name);
    cases::say(to, b" ");
    cases::say_moment(to, x.start);
    cases::say(to, b" ");
    cases::say_moment(to, x.end);
}

fn is_dash(s: &[u8]) -> bool {
    if s.len() == 1 {
        return s[0] == b'-';
    }
    false
}

// The answer for an instant of the range.
fn look_up<W: Write>(to: &mut W, s: &[u8], pool: u64, t: u64) {
    if t < FIRST {
        return;
    }
    if END <= t {
        return;
    }
    show_answer(to, zone_lookups::find(s, pool, t, Edition::Two));
}

fn run_zone<W: Write>(to: &mut W, s: &[u8], pool: u64, text: &[u8]) {
    show_verdict(to, zone_reads::check(s, pool));
    if !is_dash(text) {
        look_up(to, s, pool, signed::instant(cases::integer(text)));
    }
    cases::say(to, b"\n");
}

pub fn run_line<W: Write>(to: &mut W, line: &[u8], buf: &mut [u8]) {
    let n = cases::build(line, 2, buf);
    run_zone(
        to,
        &buf[..n],
        cases::size(line, 1) as u64,
        hex::text(line, 0),
    );
}
