// The older edition's count, and a number behind a prefix, written.
#![tactic(auto)]

ghost use Rattle.std.specs.Prelude.{◌≡◌, ◌+◌, ◌/◌, ◌^◌, ◌≤◌, ◌<◌, length};
ghost use Rattle.base.specs.Writing.{bytes, Writes};
ghost use Rattle.counts.specs.Fixed.{prefixed};
ghost use Rattle.old_counts.specs.OldCount.{write_old_count, old_count_form};

use base::Refusal;

// How many bytes the count of `v` takes.
pub fn count_size(v: u64) -> usize
    ensures { result ≡ length (write_old_count v) }
{
    if v < 0x8f {
        return 1;
    }
    if v < 0x408f {
        return 2;
    }
    if v < 0x20408f {
        return 3;
    }
    if v < 0x1020408f {
        return 4;
    }
    5
}

// Writes `v` behind a prefix, the first of n + 1 bytes: the low bytes from the last on.
pub fn write_prefixed(n: usize, prefix: u64, v: u64, out: &mut [u8]) -> Result<usize, Refusal>
    requires { (n ≤ 4) × (prefix + v / 256 ^ n < 256) }
    ensures { Writes (bytes (prefixed n prefix v)) out.old result out.new }
{
    if out.len() <= n {
        return Err(Refusal::TooShort);
    }
    let mut rest = v;
    let mut i = n;
    while 0 < i {
        out[i] = (rest % 256) as u8;
        rest /= 256;
        i -= 1;
    }
    out[0] = (prefix + rest) as u8;
    Ok(n + 1)
}

// Writes `v` as a count to the front of `out`.
pub fn write_count(v: u64, out: &mut [u8]) -> Result<usize, Refusal>
    ensures { Writes (old_count_form v) out.old result out.new }
{
    if 2147483647 < v {
        return Err(Refusal::BadCode);
    }
    if v < 0x0f {
        return write_prefixed(0, 0xf0, v, out);
    }
    if v < 0x8f {
        return write_prefixed(0, 0x00, v - 0x0f, out);
    }
    if v < 0x408f {
        return write_prefixed(1, 0x80, v - 0x8f, out);
    }
    if v < 0x20408f {
        return write_prefixed(2, 0xc0, v - 0x408f, out);
    }
    if v < 0x1020408f {
        return write_prefixed(3, 0xe0, v - 0x20408f, out);
    }
    write_prefixed(4, 0xff, v, out)
}
