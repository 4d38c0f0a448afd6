// Runs the functions of texts on the lines of its input, bytes in hexadecimal:
// `u BYTES` whether they are UTF-8, `r BYTES` reading a text, `w TEXT OUTPUT` writing one over an output.
// The stored output comes from tests/make/text_cases.py.
use crate::{cases, hex};
use std::io::Write;

fn run_utf8<W: Write>(to: &mut W, s: &[u8]) {
    if utf8::is_utf8(s) {
        cases::say(to, b"yes");
        return;
    }
    cases::say(to, b"no");
}

// The place and the length, and the bytes that the text function hands out.
fn run_read<W: Write>(to: &mut W, s: &[u8]) {
    let t = texts::read_text(s);
    match t {
        Ok((a, n)) => {
            cases::say(to, b"part ");
            cases::say_number(to, a as u64);
            cases::say(to, b" ");
            cases::say_number(to, n as u64);
        }
        Err(k) => {
            cases::say(to, b"refused ");
            cases::say_number(to, k.number() as u64);
        }
    }
    cases::say(to, b" ");
    hex::print(to, texts::text_bytes(s));
}

// The length, and what the output holds then.
fn run_write<W: Write>(to: &mut W, t: &[u8], out: &mut [u8]) {
    let w = texts::write_text(t, out);
    match w {
        Ok(n) => {
            cases::say(to, b"length ");
            cases::say_number(to, n as u64);
        }
        Err(k) => {
            cases::say(to, b"refused ");
            cases::say_number(to, k.number() as u64);
        }
    }
    cases::say(to, b" ");
    hex::print(to, out);
}

pub fn run_line<W: Write>(to: &mut W, line: &[u8]) {
    if line.len() == 0 {
        return;
    }
    let mut first = [0u8; 2048];
    let mut second = [0u8; 2048];
    let n = hex::word(line, 1, &mut first);
    let m = hex::word(line, 2, &mut second);
    let op = line[0];
    if op == b'u' {
        run_utf8(to, &first[..n]);
    } else if op == b'r' {
        run_read(to, &first[..n]);
    } else {
        run_write(to, &first[..n], &mut second[..m]);
    }
    cases::say(to, b"\n");
}
