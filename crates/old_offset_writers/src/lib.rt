// The older edition's offset, written.
#![tactic(auto)]

ghost use Rattle.base.specs.Writing.{Writes};
ghost use Rattle.old_offsets.specs.OldOffset.{old_sum_form, old_offset_form};

use base::Refusal;

// Writes the offset of a sum to the front of `out`.
fn write_sum(sum: u64, out: &mut [u8]) -> Result<usize, Refusal>
    ensures { Writes (old_sum_form sum) out.old result out.new }
{
    if sum < 1 {
        return Err(Refusal::BadCode);
    }
    if sum > 172799999 {
        return Err(Refusal::BadCode);
    }
    if sum % 1800000 == 0 {
        return old_count_writers::write_prefixed(0, 0x00, sum / 1800000 + 0x3f - 48, out);
    }
    if sum % 1000 == 0 {
        return old_count_writers::write_prefixed(2, 0x00, sum / 1000 + 0x83ffff - 86400, out);
    }
    old_count_writers::write_prefixed(4, 0xfd, (sum + 0x100000000 - 86400000) % 0x100000000, out)
}

// Writes the offset of `ms` milliseconds to the front of `out`.
pub fn write_offset(ms: i64, out: &mut [u8]) -> Result<usize, Refusal>
    ensures { Writes (old_offset_form ms) out.old result out.new }
{
    write_sum(signed::offset_sum(ms), out)
}
