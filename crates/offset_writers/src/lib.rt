// Offsets, written.
#![tactic(auto)]

ghost use Rattle.std.specs.Prelude.{[], ◌∷◌, ◌+◌, ◌/◌, ◌<◌};
ghost use Rattle.base.specs.Writing.{bytes, Writes};
ghost use Rattle.counts.specs.Fixed.{fixed_bytes};
ghost use Rattle.offsets.specs.Offset.{sum_form, offset_form};

use base::Refusal;

// Half hours, in one byte.
fn write_half_hours(v: u64, out: &mut [u8]) -> Result<usize, Refusal>
    requires { v < 96 }
    ensures { Writes (bytes (v ∷ [])) out.old result out.new }
{
    if out.len() < 1 {
        return Err(Refusal::TooShort);
    }
    out[0] = v as u8;
    Ok(1)
}

// 100 and 13 bits of minutes.
fn write_minutes(v: u64, out: &mut [u8]) -> Result<usize, Refusal>
    requires { v < 2880 }
    ensures { Writes (bytes ((128 + v / 256) ∷ fixed_bytes 1 v)) out.old result out.new }
{
    if out.len() < 2 {
        return Err(Refusal::TooShort);
    }
    out[0] = (128 + v / 256) as u8;
    out[1] = (v / 1 % 256) as u8;
    Ok(2)
}

// 101 and 21 bits of seconds.
fn write_seconds(v: u64, out: &mut [u8]) -> Result<usize, Refusal>
    requires { v < 172800 }
    ensures { Writes (bytes ((160 + v / 65536) ∷ fixed_bytes 2 v)) out.old result out.new }
{
    if out.len() < 3 {
        return Err(Refusal::TooShort);
    }
    out[0] = (160 + v / 65536) as u8;
    out[1] = (v / 256 % 256) as u8;
    out[2] = (v / 1 % 256) as u8;
    Ok(3)
}

// 110 and 29 bits of milliseconds.
fn write_milliseconds(v: u64, out: &mut [u8]) -> Result<usize, Refusal>
    requires { v < 172800000 }
    ensures { Writes (bytes ((192 + v / 16777216) ∷ fixed_bytes 3 v)) out.old result out.new }
{
    if out.len() < 4 {
        return Err(Refusal::TooShort);
    }
    out[0] = (192 + v / 16777216) as u8;
    out[1] = (v / 65536 % 256) as u8;
    out[2] = (v / 256 % 256) as u8;
    out[3] = (v / 1 % 256) as u8;
    Ok(4)
}

// Writes the offset of a sum to the front of `out`.
fn write_sum(sum: u64, out: &mut [u8]) -> Result<usize, Refusal>
    ensures { Writes (sum_form sum) out.old result out.new }
{
    if sum < 1 {
        return Err(Refusal::BadCode);
    }
    if sum > 172799999 {
        return Err(Refusal::BadCode);
    }
    if sum % 1800000 == 0 {
        return write_half_hours(sum / 1800000, out);
    }
    if sum % 60000 == 0 {
        return write_minutes(sum / 60000, out);
    }
    if sum % 1000 == 0 {
        return write_seconds(sum / 1000, out);
    }
    write_milliseconds(sum, out)
}

// Writes the offset of `ms` milliseconds to the front of `out`.
pub fn write_offset(ms: i64, out: &mut [u8]) -> Result<usize, Refusal>
    ensures { Writes (offset_form ms) out.old result out.new }
{
    write_sum(signed::offset_sum(ms), out)
}
