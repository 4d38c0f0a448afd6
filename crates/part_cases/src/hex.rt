// Hexadecimal text and the bytes that it spells.
ghost use Rattle.std.specs.Prelude.{◌≡◌, ◌≤◌, ◌<◌, length, take};

use std::io::Write;

// The place of the first b in s from a place on, or s's end.
pub fn find(s: &[u8], from: usize, b: u8) -> usize
    requires { from ≤ length s.now }
    ensures { (from ≤ result) × (result ≤ length s.now) }
{
    for i in from..s.len() {
        if s[i] == b {
            return i;
        }
    }
    s.len()
}

// The place behind at, or s's end.
fn past(s: &[u8], at: usize) -> usize
    ensures { result ≤ length s.now }
{
    if at < s.len() { at + 1 } else { s.len() }
}

fn digit(b: u8) -> u8
    ensures { result < 16 }
{
    if b < 48 {
        return 0;
    }
    if b < 58 {
        return b - 48;
    }
    if b < 97 {
        return 0;
    }
    if b < 103 {
        return b - 87;
    }
    0
}

pub fn least(a: usize, b: usize) -> usize
    ensures { (result ≤ a) × (result ≤ b) }
{
    if a < b { a } else { b }
}

// Puts the bytes that text spells, two digits each, at the start of out, as many as have room, and gives their number.
fn decode(text: &[u8], out: &mut [u8]) -> usize
    ensures bound { result ≤ length out.new }
    ensures taken { result ≡ length (take result out.new) }
{
    let n = least(text.len() / 2, out.len());
    for i in 0..n {
        out[i] = digit(text[2 * i]) * 16 + digit(text[2 * i + 1]);
    }
    n
}

// The k-th word of line, from 0, as a part of it; none where it is not there.
pub fn text<'a>(line: &'a [u8], k: usize) -> &'a [u8] {
    let mut at: usize = 0;
    for _ in 0..k {
        at = past(line, find(line, at, 32));
    }
    let e = find(line, at, 32);
    &line[at..e]
}

// What stands behind the first word of line.
pub fn behind<'a>(line: &'a [u8]) -> &'a [u8] {
    let at = past(line, find(line, 0, 32));
    &line[at..]
}

// Puts the bytes that the k-th word of line spells at the start of out, and gives their number. A word that is not there, or is `-`,
// spells none.
pub fn word(line: &[u8], k: usize, out: &mut [u8]) -> usize
    ensures bound { result ≤ length out.new }
    ensures taken { result ≡ length (take result out.new) }
{
    decode(text(line, k), out)
}

// Writes two digits for each byte of s.
pub fn print<W: Write>(to: &mut W, s: &[u8]) {
    for &b in s {
        let _ = write!(to, "{b:02x}");
    }
}

// Puts part into buf at a place, where it has room, and gives the place behind it.
pub fn append(buf: &mut [u8], at: usize, part: &[u8]) -> usize
    requires { at ≤ length buf.old }
    ensures { result ≤ length buf.new }
{
    if buf.len() - at < part.len() {
        return at;
    }
    slices::copy(part, &mut buf[at..]);
    at + part.len()
}

// Puts unit into buf so many times, each where it has room, and gives the place behind the last.
pub fn repeat(buf: &mut [u8], from: usize, unit: &[u8], times: usize) -> usize
    requires { from ≤ length buf.old }
    ensures { result ≤ length buf.new }
{
    let mut at = from;
    for _ in 0..times {
        at = append(buf, at, unit);
    }
    at
}
