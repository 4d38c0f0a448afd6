// The older edition's offset, read: milliseconds, to which 86,400,000 are added, so that the sum is unsigned.
#![tactic(auto)]

ghost use Rattle.std.specs.Prelude.{◌≡◌, ◌<◌};
ghost use Rattle.counts.specs.Fixed.{read_fixed};
ghost use Rattle.old_offsets.specs.OldOffset.{by_seconds, by_milliseconds, judged, read_old_sum, read_old_offset};

use base::{Coded, Refusal};

// The sum of three bytes of seconds, of which the first is `high` and the others are at the front of `s`.
fn by_seconds(s: &[u8], high: u64) -> Coded<u64>
    requires { high < 256 }
    ensures { result ≡ judged by_seconds 1800000 (read_fixed 2 high s.now) }
{
    let (v, n) = count_readers::read_fixed(s, 2, high)?;
    if v + 86400 < 0x83ffff {
        return Err(Refusal::BadCode);
    }
    offset_readers::offset_of(n + 1, 1800000, (v + 86400 - 0x83ffff) * 1000)
}

// The sum of four bytes of milliseconds, in two's complement.
fn by_milliseconds(s: &[u8]) -> Coded<u64>
    ensures { result ≡ judged by_milliseconds 1000 (read_fixed 4 0 s.now) }
{
    let (v, n) = count_readers::read_fixed(s, 4, 0)?;
    offset_readers::offset_of(n + 1, 1000, (v + 86400000) % 0x100000000)
}

// The sum of the offset at the front of `s`.
fn read_sum(s: &[u8]) -> Coded<u64>
    ensures { result ≡ read_old_sum s.now }
{
    if s.len() == 0 {
        return Err(Refusal::BadData);
    }
    let b = s[0] as u64;
    if b < 0x10 {
        return Err(Refusal::BadCode);
    }
    if b < 0x6f {
        return offset_readers::offset_of(1, 172800000, (b + 48 - 0x3f) * 1800000);
    }
    if b < 0x82 {
        return Err(Refusal::BadCode);
    }
    if b < 0x86 {
        return by_seconds(&s[1..], b);
    }
    if b == 0xfd {
        return by_milliseconds(&s[1..]);
    }
    Err(Refusal::BadCode)
}

// The offset at the front of `s`, in milliseconds.
pub fn read_offset(s: &[u8]) -> Coded<i64>
    ensures { result ≡ read_old_offset s.now }
{
    let (sum, n) = read_sum(s)?;
    Ok((signed::milliseconds(sum), n))
}
