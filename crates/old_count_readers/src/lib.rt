// The older edition's count, read.
#![tactic(auto)]

ghost use Rattle.std.specs.Prelude.{◌≡◌, ◌^◌, ◌≤◌, ◌<◌};
ghost use Rattle.counts.specs.Fixed.{read_fixed};
ghost use Rattle.old_counts.specs.OldCount.{value_from, largest, read_old_count};

use base::{Coded, Refusal};

// A number in `n` bytes at the front of `s`, behind the bits of `high`, in a form whose values start at `first`.
fn value_from(s: &[u8], n: usize, high: u64, first: u64) -> Coded<u64>
    requires { (n ≤ 3) × (high < 64) × (first < 2 ^ 32) }
    ensures { result ≡ value_from first (read_fixed n high s.now) }
{
    let (v, m) = count_readers::read_fixed(s, n, high)?;
    Ok((first + v, m + 1))
}

// The value of five bytes, whose last four are at the front of `s`.
fn largest(s: &[u8]) -> Coded<u64>
    ensures { result ≡ largest (read_fixed 4 0 s.now) }
{
    let (v, m) = count_readers::read_fixed(s, 4, 0)?;
    if v < 0x1020408f {
        return Err(Refusal::BadCode);
    }
    if 0x7fffffff < v {
        return Err(Refusal::BadCode);
    }
    Ok((v, m + 1))
}

// The count at the front of `s`.
pub fn read_count(s: &[u8]) -> Coded<u64>
    ensures { result ≡ read_old_count s.now }
{
    if s.len() == 0 {
        return Err(Refusal::BadData);
    }
    let b = s[0] as u64;
    if b < 0x80 {
        return Ok((0x0f + b, 1));
    }
    if b < 0xc0 {
        return value_from(&s[1..], 1, b - 0x80, 0x8f);
    }
    if b < 0xe0 {
        return value_from(&s[1..], 2, b - 0xc0, 0x408f);
    }
    if b < 0xf0 {
        return value_from(&s[1..], 3, b - 0xe0, 0x20408f);
    }
    if b < 0xff {
        return Ok((b - 0xf0, 1));
    }
    largest(&s[1..])
}
