// Transitions, read.
#![tactic(auto)]

ghost use Rattle.std.specs.Prelude.{◌≡◌, ◌≤◌, ◌<◌};
ghost use Rattle.base.specs.Moment.{first_instant};
ghost use Rattle.counts.specs.Fixed.{read_fixed};
ghost use Rattle.transitions.specs.Later.{later_in};
ghost use Rattle.transitions.specs.Transition.{in_range, hours_after, from_count, from_ticks, read_moment, read_transition};

use base::{Coded, END, FIRST, LAST, Refusal};
use transitions::{HOUR, MINUTE, YEAR_1800};

// An instant `t`, which isn't before year 1, in `n` bytes.
fn in_range(n: usize, t: u64) -> Coded<u64>
    requires { first_instant ≤ t }
    ensures { result ≡ in_range n t }
{
    if t <= LAST {
        return Ok((t, n));
    }
    Err(Refusal::BadCode)
}

// `v` hours after the previous transition.
fn hours_after(previous: u64, v: u64, n: usize) -> Coded<u64>
    requires { v < 2097152 }
    ensures { result ≡ hours_after previous v n }
{
    if previous < FIRST {
        return Err(Refusal::BadCode);
    }
    if previous > LAST {
        return Err(Refusal::BadCode);
    }
    in_range(n, previous + v * HOUR)
}

// The moment of a count `v` other than 2, in `n` bytes.
fn from_count(previous: u64, v: u64, n: usize) -> Coded<u64>
    requires { v ≤ 2147483647 }
    ensures { result ≡ from_count previous v n }
{
    if v == 0 {
        return Ok((0, n));
    }
    if v == 1 {
        return Ok((END, n));
    }
    if v < 128 {
        return Err(Refusal::BadCode);
    }
    if v < 2097152 {
        return hours_after(previous, v, n);
    }
    in_range(n, YEAR_1800 + v * MINUTE)
}

// The instant of eight bytes at the front of `s`, behind `n` bytes.
fn from_ticks(s: &[u8], n: usize) -> Coded<u64>
    requires { n ≤ 5 }
    ensures { result ≡ from_ticks n (read_fixed 8 0 s.now) }
{
    let (raw, m) = count_readers::read_fixed(s, 8, 0)?;
    let t = signed::from_raw(raw);
    if t == 0 {
        Err(Refusal::BadCode)
    } else {
        Ok((t, n + m))
    }
}

// The moment at the front of `s`, after a previous one.
pub fn read_moment(previous: u64, s: &[u8]) -> Coded<u64>
    ensures { result ≡ read_moment previous s.now }
{
    let (v, n) = count_readers::read_count(s)?;
    if v == 2 {
        return from_ticks(&s[n..], n);
    }
    from_count(previous, v, n)
}

// The instant in ticks at the front of `s`, where it is after the instant `previous`; else 0.
pub fn ticks_after(previous: u64, s: &[u8]) -> u64
    ensures { result ≡ later_in previous 9 (read_moment previous s.now) }
{
    if s.len() < 9 {
        return 0;
    }
    if s[0] != 2 {
        return 0;
    }
    if previous < FIRST {
        return 0;
    }
    let raw = count_readers::fixed_from(&s[1..], 8, 0);
    let t = signed::from_raw(raw);
    if previous < t {
        return t;
    }
    0
}

// The transition at the front of `s`, in ticks since 1970: the least number for start of time, the largest for end of time.
pub fn read_transition(previous: i64, s: &[u8]) -> Coded<i64>
    ensures { result ≡ read_transition previous s.now }
{
    let (m, n) = read_moment(signed::instant(previous), s)?;
    Ok((signed::ticks(m), n))
}
