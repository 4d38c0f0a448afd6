// Counts, signed counts and numbers in a fixed number of bytes, read.
#![tactic(auto)]

ghost use Rattle.std.specs.Prelude.{◌≡◌, ◌+◌, ◌*◌, ◌^◌, ◌≤◌, ◌<◌, length, drop};
ghost use Rattle.counts.specs.Groups.{any_groups, read_groups};
ghost use Rattle.counts.specs.Count.{read_count};
ghost use Rattle.counts.specs.SignedCount.{read_signed_count};
ghost use Rattle.counts.specs.Fixed.{fixed_from, read_fixed};

use base::{Coded, Refusal};

// Groups in any form: at most four bytes with the top bit set, then a last one, which after all of them is at most `top`. The loop's end
// is a constant, so that it can be unrolled.
pub fn read_any(s: &[u8], top: u64) -> Coded<u64>
    requires { top < 16 }
    ensures { result ≡ any_groups 4 top s.now }
{
    let mut v: u64 = 0;
    let mut unit: u64 = 1;
    let mut i: usize = 0;
    while i < 4 {
        if s.len() <= i {
            return Err(Refusal::BadData);
        }
        let b = s[i] as u64;
        if b < 128 {
            return Ok((v + unit * b, i + 1));
        }
        v += unit * (b % 128);
        unit *= 128;
        i += 1;
    }
    if s.len() <= 4 {
        return Err(Refusal::BadData);
    }
    let e = s[4] as u64;
    if e <= top {
        return Ok((v + unit * e, 5));
    }
    Err(Refusal::BadCode)
}

// The same in the shortest form only: no last byte 0 behind others.
pub fn read_groups(s: &[u8], top: u64) -> Coded<u64>
    requires { top < 16 }
    ensures { result ≡ read_groups 4 top s.now }
{
    let (v, n) = read_any(s, top)?;
    if 1 < n {
        if s[n - 1] == 0 {
            return Err(Refusal::BadCode);
        }
    }
    Ok((v, n))
}

// The count at the front of `s`.
pub fn read_count(s: &[u8]) -> Coded<u64>
    ensures { result ≡ read_count s.now }
{
    read_groups(s, 7)
}

// The signed count at the front of `s`.
pub fn read_signed_count(s: &[u8]) -> Coded<i64>
    ensures { result ≡ read_signed_count s.now }
{
    let (u, n) = read_groups(s, 15)?;
    Ok((signed::unzigzag(u), n))
}

// The number of the first `n` bytes of `s`, high first, behind the bits of `high`.
pub fn fixed_from(s: &[u8], n: usize, high: u64) -> u64
    requires { (n ≤ length s.now) × ((high + 1) * 256 ^ n ≤ 2 ^ 64) }
    ensures { result ≡ fixed_from n high s.now }
{
    let mut v = high;
    let mut i: usize = 0;
    while i < n {
        v = v * 256 + s[i] as u64;
        i += 1;
    }
    v
}

// A number in `n` bytes at the front of `s`, high first, behind the bits of `high`.
pub fn read_fixed(s: &[u8], n: usize, high: u64) -> Coded<u64>
    requires { (high + 1) * 256 ^ n ≤ 2 ^ 64 }
    ensures { result ≡ read_fixed n high s.now }
{
    if s.len() < n {
        return Err(Refusal::BadData);
    }
    Ok((fixed_from(s, n, high), n))
}

// The number of the four bytes at a place, high first, which becomes one load.
pub fn four_at(s: &[u8], at: usize) -> u64
    requires { at + 4 ≤ length s.now }
    ensures { (result ≡ fixed_from 4 0 (drop at s.now)) × (result < 4294967296) }
{
    let a = s[at] as u64;
    let b = s[at + 1] as u64;
    let c = s[at + 2] as u64;
    let d = s[at + 3] as u64;
    ((a * 256 + b) * 256 + c) * 256 + d
}
