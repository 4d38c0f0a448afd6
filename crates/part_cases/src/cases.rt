// What the cases share: numbers that a line spells, bytes that it spells in parts, and what is written.
ghost use Rattle.std.specs.Prelude.{◌≡◌, ◌<◌, ◌≤◌, length, take};

use crate::hex;
use std::io::Write;

pub fn say<W: Write>(to: &mut W, word: &[u8]) {
    let _ = to.write_all(word);
}

pub fn say_number<W: Write>(to: &mut W, n: u64) {
    let _ = write!(to, "{n}");
}

pub fn say_integer<W: Write>(to: &mut W, z: i64) {
    if z < 0 {
        say(to, b"-");
    }
    say_number(to, signed::magnitude(z));
}

// The integer a - b.
pub fn say_difference<W: Write>(to: &mut W, a: u64, b: u64) {
    if a < b {
        say(to, b"-");
        say_number(to, b - a);
        return;
    }
    say_number(to, a - b);
}

// A moment, in ticks since 1970.
pub fn say_moment<W: Write>(to: &mut W, m: u64) {
    if m == 0 {
        say(to, b"start");
        return;
    }
    if m == 3281606784000000000 {
        say(to, b"end");
        return;
    }
    say_difference(to, m, 747583776000000000);
}

// v with one digit behind it, where there is room.
fn with_digit(v: u64, b: u8) -> u64 {
    if b < b'0' {
        return v;
    }
    if b > b'9' {
        return v;
    }
    if v > 1844674407370955160 {
        return v;
    }
    v * 10 + ((b - b'0') as u64)
}

// The number that the digits of s spell.
pub fn natural(s: &[u8]) -> u64 {
    let mut v: u64 = 0;
    for &b in s {
        v = with_digit(v, b);
    }
    v
}

// The integer that s spells, with a minus if it is negative; 0 for one past 64 bits.
pub fn integer(s: &[u8]) -> i64 {
    if s.len() == 0 {
        return 0;
    }
    let v = natural(s);
    if v == 0 {
        return 0;
    }
    if v > 9223372036854775808 {
        return 0;
    }
    if s[0] == b'-' {
        return signed::unzigzag((v - 1) * 2 + 1);
    }
    if v > 9223372036854775807 {
        return 0;
    }
    signed::unzigzag(v * 2)
}

fn wide(b: u8) -> usize
    ensures { result < 256 }
{
    b as usize
}

// The number of the three bytes, at most, that the k-th word of line spells, high first.
pub fn size(line: &[u8], k: usize) -> usize
    ensures { result < 16777216 }
{
    let mut b = [0u8; 3];
    let n = hex::word(line, k, &mut b);
    if n == 2 {
        return wide(b[0]) * 256 + wide(b[1]);
    }
    wide(b[0]) * 65536 + wide(b[1]) * 256 + wide(b[2])
}

// Puts what the words of line from the k-th on spell into buf: a front, a unit as many times as the word behind it says, and an end.
pub fn build(line: &[u8], k: usize, buf: &mut [u8]) -> usize
    requires { k < 256 }
    ensures bound { result ≤ length buf.new }
    ensures taken { result ≡ length (take result buf.new) }
{
    let mut part = [0u8; 2048];
    let f = hex::word(line, k, &mut part);
    let a = hex::append(buf, 0, &part[..f]);
    let u = hex::word(line, k + 1, &mut part);
    let b = hex::repeat(buf, a, &part[..u], size(line, k + 2));
    let e = hex::word(line, k + 3, &mut part);
    hex::append(buf, b, &part[..e])
}
