// Counts and signed counts, written.
#![tactic(auto)]

ghost use Rattle.std.specs.Prelude.{◌≡◌, ◌+◌, ◌<◌, length};
ghost use Rattle.base.specs.Writing.{bytes, Writes};
ghost use Rattle.counts.specs.Groups.{write_groups};
ghost use Rattle.counts.specs.Count.{write_count, count_form};
ghost use Rattle.counts.specs.SignedCount.{signed_count_form};

use base::Refusal;

// How many bytes the count of `v` takes.
pub fn count_size(v: u64) -> usize
    ensures { result ≡ length (write_count v) }
{
    if v < 128 {
        return 1;
    }
    if v < 16384 {
        return 2;
    }
    if v < 2097152 {
        return 3;
    }
    if v < 268435456 {
        return 4;
    }
    5
}

// Writes the groups of `v`, once they are known to have room.
fn write_groups(v: u64, out: &mut [u8]) -> Result<usize, Refusal>
    ensures { Writes (bytes (write_groups 4 v)) out.old result out.new }
{
    let n = count_size(v);
    if out.len() < n {
        return Err(Refusal::TooShort);
    }
    let mut rest = v;
    let mut i: usize = 0;
    while i + 1 < n {
        out[i] = (128 + rest % 128) as u8;
        rest /= 128;
        i += 1;
    }
    out[i] = (rest % 128) as u8;
    Ok(n)
}

// Writes `v` as a count to the front of `out`.
pub fn write_count(v: u64, out: &mut [u8]) -> Result<usize, Refusal>
    ensures { Writes (count_form v) out.old result out.new }
{
    if v <= 2147483647 {
        write_groups(v, out)
    } else {
        Err(Refusal::BadCode)
    }
}

// Writes `v` as a signed count to the front of `out`.
pub fn write_signed_count(v: i64, out: &mut [u8]) -> Result<usize, Refusal>
    ensures { Writes (signed_count_form v) out.old result out.new }
{
    let u = signed::zigzag(v);
    if u <= 4294967295 {
        return write_groups(u, out);
    }
    Err(Refusal::BadCode)
}
