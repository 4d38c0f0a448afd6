// Transitions, written.
#![tactic(auto)]

ghost use Rattle.std.specs.Prelude.{◌≡◌, ◌∷◌, ◌<◌, length};
ghost use Rattle.base.specs.Writing.{bytes, Writes};
ghost use Rattle.counts.specs.Fixed.{fixed_bytes};
ghost use Rattle.transitions.specs.Transition.{units_to, hours_to, count_to, write_moment, moment_form, transition_form};

use base::{END, FIRST, LAST, Refusal};
use transitions::{HOUR, MINUTE, YEAR_1800};

// The count of units from one instant to another, or 0 where it isn't whole, at least `least` and below `limit`.
fn units_to(unit: u64, least: u64, limit: u64, from: u64, t: u64) -> u64
    requires { 0 < unit }
    ensures { result ≡ units_to unit least limit from t }
{
    if t < from {
        return 0;
    }
    let d = t - from;
    if d % unit != 0 {
        return 0;
    }
    let v = d / unit;
    if v < least {
        return 0;
    }
    if v < limit {
        return v;
    }
    0
}

// The hours from the previous transition, if they can be its code.
pub fn hours_to(previous: u64, t: u64) -> u64
    ensures { result ≡ hours_to previous t }
{
    if previous < FIRST {
        return 0;
    }
    if previous > LAST {
        return 0;
    }
    units_to(HOUR, 128, 2097152, previous, t)
}

// The count that is the code of the instant `t`, or 0 where none is.
fn count_to(previous: u64, t: u64) -> u64
    ensures { result ≡ count_to previous t }
{
    let v = hours_to(previous, t);
    if v == 0 {
        return units_to(MINUTE, 2097152, 2147483648, YEAR_1800, t);
    }
    v
}

// How many bytes the code of a moment takes.
pub fn moment_size(previous: u64, m: u64) -> usize
    ensures { result ≡ length (write_moment previous m) }
{
    if m == 0 {
        return 1;
    }
    if m == END {
        return 1;
    }
    let v = count_to(previous, m);
    if v == 0 {
        return 9;
    }
    count_writers::count_size(v)
}

// 2, then the bits of the ticks, high first.
fn write_ticks(raw: u64, out: &mut [u8]) -> Result<usize, Refusal>
    ensures { Writes (bytes (2 ∷ fixed_bytes 8 raw)) out.old result out.new }
{
    if out.len() < 9 {
        return Err(Refusal::TooShort);
    }
    out[0] = 2;
    out[1] = (raw / 72057594037927936 % 256) as u8;
    out[2] = (raw / 281474976710656 % 256) as u8;
    out[3] = (raw / 1099511627776 % 256) as u8;
    out[4] = (raw / 4294967296 % 256) as u8;
    out[5] = (raw / 16777216 % 256) as u8;
    out[6] = (raw / 65536 % 256) as u8;
    out[7] = (raw / 256 % 256) as u8;
    out[8] = (raw / 1 % 256) as u8;
    Ok(9)
}

// Writes the moment `m`, after a previous one, to the front of `out`.
pub fn write_moment(previous: u64, m: u64, out: &mut [u8]) -> Result<usize, Refusal>
    ensures { Writes (moment_form previous m) out.old result out.new }
{
    if m == 0 {
        return count_writers::write_count(0, out);
    }
    if m == END {
        return count_writers::write_count(1, out);
    }
    if m < FIRST {
        return Err(Refusal::BadCode);
    }
    if m > LAST {
        return Err(Refusal::BadCode);
    }
    let v = count_to(previous, m);
    if v == 0 {
        return write_ticks(signed::raw_of(m), out);
    }
    count_writers::write_count(v, out)
}

// Writes the transition at tick `t`, after a previous one, to the front of `out`.
pub fn write_transition(previous: i64, t: i64, out: &mut [u8]) -> Result<usize, Refusal>
    ensures { Writes (transition_form previous t) out.old result out.new }
{
    write_moment(signed::instant(previous), signed::moment(t), out)
}
