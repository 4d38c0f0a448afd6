// Makes pins of stored seconds, and writes their bit patterns: tests/make/pin_cases.py says what the lines are.
ghost use Rattle.std.specs.Prelude.{◌≡◌, not, ◌≤◌, T, nat_abs};
ghost use Rattle.std.specs.Float.Ieee.{is_nan};

use crate::{cases, hex};
use std::io::Write;

// So many seconds, or as many below 0.
fn seconds(below: bool, n: u64) -> i32
    requires { n ≤ 2147483647 }
    ensures { nat_abs result ≡ n }
{
    if below {
        return -(n as i32);
    }
    n as i32
}

// The bits of a double.
fn pattern(x: f64) -> u64
    requires { T (not (is_nan x)) }
{
    f64::to_bits(x)
}

#[derive(Clone, Copy)]
struct Patterns {
    latitude: u64,
    longitude: u64,
}

fn pin_patterns(latitude: i32, longitude: i32) -> Patterns {
    let p = pins::pin_of(latitude, longitude);
    Patterns {
        latitude: pattern(p.latitude),
        longitude: pattern(p.longitude),
    }
}

// A digest of patterns: the number that they spell in base 65599, modulo a prime.
fn digested(digest: u64, pattern: u64) -> u64 {
    (digest % 4294967291 * 65599 + pattern % 4294967291) % 4294967291
}

// The digest of the pins of n seconds north and as many west, for n from first to last.
fn digest(first: u64, last: u64) -> u64
    requires { last ≤ 648000 }
{
    let mut d: u64 = 0;
    for n in first..=last {
        let p = pin_patterns(seconds(false, n), seconds(true, n));
        d = digested(digested(d, p.latitude), p.longitude);
    }
    d
}

fn say_patterns<W: Write>(to: &mut W, p: Patterns) {
    let _ = write!(to, "{:016x}", p.latitude);
    cases::say(to, b" ");
    let _ = write!(to, "{:016x}", p.longitude);
}

// Sixteen times the degrees, where that is a whole number.
fn say_sixteenths<W: Write>(to: &mut W, below: bool, n: u64)
    requires { n ≤ 2147483647 }
{
    if n % 225 == 0 {
        cases::say_integer(to, pins::sixteenths(seconds(below, n)) as i64);
        return;
    }
    cases::say(to, b"-");
}

fn first(s: &[u8]) -> u8 {
    if s.len() == 0 {
        return 0;
    }
    s[0]
}

// A number of seconds, 0 for one past 32 bits.
fn number(s: &[u8]) -> u64
    ensures { result ≤ 2147483647 }
{
    let n = cases::natural(s);
    if n > 2147483647 {
        return 0;
    }
    n
}

fn signed_seconds(s: &[u8]) -> i32 {
    seconds(first(s) == b'-', number(s))
}

fn run_range<W: Write>(to: &mut W, from: u64, last: u64) {
    if last > 648000 {
        return;
    }
    cases::say_number(to, digest(from, last));
}

pub fn run_line<W: Write>(to: &mut W, line: &[u8]) {
    let kind = first(line);
    let one = hex::text(line, 1);
    if kind == b'p' {
        say_patterns(
            to,
            pin_patterns(signed_seconds(one), signed_seconds(hex::text(line, 2))),
        );
    } else if kind == b's' {
        say_sixteenths(to, first(one) == b'-', number(one));
    } else {
        run_range(to, number(one), number(hex::text(line, 2)));
    }
    cases::say(to, b"\n");
}
