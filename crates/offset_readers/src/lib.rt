// Offsets, read.
#![tactic(auto)]

ghost use Rattle.std.specs.Prelude.{◌≡◌, ◌+◌, ◌*◌, ◌≤◌, ◌<◌};
ghost use Rattle.counts.specs.Fixed.{read_fixed};
ghost use Rattle.offsets.specs.Offset.{offset_of, in_units, read_sum, read_offset};

use base::{Coded, Refusal};

// A sum in its range that no earlier form, in units of `coarser`, can carry.
pub fn offset_of(n: usize, coarser: u64, sum: u64) -> Coded<u64>
    requires { 0 < coarser }
    ensures { result ≡ offset_of n coarser sum }
{
    if sum < 1 {
        return Err(Refusal::BadCode);
    }
    if sum > 172799999 {
        return Err(Refusal::BadCode);
    }
    if sum % coarser == 0 {
        return Err(Refusal::BadCode);
    }
    Ok((sum, n))
}

// A number of units in `n` bytes at the front of `s`, behind the bits of `high`.
fn in_units(s: &[u8], n: usize, high: u64, unit: u64, coarser: u64) -> Coded<u64>
    requires { (n ≤ 3) × (high < 32) × (unit ≤ 60000) × (0 < coarser) }
    ensures { result ≡ in_units unit coarser (read_fixed n high s.now) }
{
    let (v, m) = count_readers::read_fixed(s, n, high)?;
    offset_of(m + 1, coarser, v * unit)
}

// The sum of the offset at the front of `s`.
pub fn read_sum(s: &[u8]) -> Coded<u64>
    ensures { result ≡ read_sum s.now }
{
    if s.len() == 0 {
        return Err(Refusal::BadData);
    }
    let b = s[0] as u64;
    if b < 128 {
        return offset_of(1, 172800000, b * 1800000);
    }
    if b < 160 {
        return in_units(&s[1..], 1, b % 32, 60000, 1800000);
    }
    if b < 192 {
        return in_units(&s[1..], 2, b % 32, 1000, 60000);
    }
    if b < 224 {
        return in_units(&s[1..], 3, b % 32, 1, 1000);
    }
    Err(Refusal::BadCode)
}

// The offset at the front of `s`, in milliseconds.
pub fn read_offset(s: &[u8]) -> Coded<i64>
    ensures { result ≡ read_offset s.now }
{
    let (sum, n) = read_sum(s)?;
    Ok((signed::milliseconds(sum), n))
}
