// What stands behind the intervals of a zone, to the end of its data. Nothing is copied.
#![tactic(auto)]

ghost use Rattle.std.specs.Prelude.{◌≤◌, length, drop};
ghost use Rattle.zones.specs.Parse.{parse_tailed, after_tail_byte, after_intervals};
ghost use Rattle.zones.specs.View.{EndOf};
ghost use Rattle.zone_ends.specs.Untailed.{UntailedAt};

use base::{END, Refusal};
use zones::ZoneEnd;

// What stands behind the end transition of a zone with a tail.
fn read_tailed(s: &[u8], at: usize, pool: u64, last: u64, end: u64) -> ZoneEnd
    requires { at ≤ length s.now }
    ensures { EndOf (λ id is. parse_tailed pool id is end (drop at s.now)) last result }
{
    match tails::read_tail(s, at, pool, end) {
        Err(k) => ZoneEnd::Refused(k),
        Ok((n, e)) => {
            if e < s.len() {
                return ZoneEnd::Refused(Refusal::BadData);
            }
            ZoneEnd::Tailed(n)
        }
    }
}

// The tail byte b is judged, then the end transition.
fn read_ending(s: &[u8], at: usize, pool: u64, last: u64, end: u64, b: u64) -> ZoneEnd
    requires { at ≤ length s.now }
    ensures { EndOf (λ id is. after_tail_byte pool id is end b (drop at s.now)) last result }
{
    if b == 0 {
        if end == END {
            if at < s.len() {
                return ZoneEnd::Refused(Refusal::BadData);
            }
            return ZoneEnd::Untailed;
        }
        return ZoneEnd::Refused(Refusal::BadInterval);
    }
    if b == 1 {
        if last < end {
            if end < END {
                return read_tailed(s, at, pool, last, end);
            }
        }
        return ZoneEnd::Refused(Refusal::BadInterval);
    }
    ZoneEnd::Refused(Refusal::BadData)
}

// What stands behind intervals of which the last starts at the moment `last`.
pub fn read_end(s: &[u8], at: usize, pool: u64, last: u64) -> ZoneEnd
    requires { at ≤ length s.now }
    ensures { EndOf (λ id is. after_intervals pool id is (drop at s.now)) last result }
{
    match places::moment_at(s, at, last) {
        Err(k) => ZoneEnd::Refused(k),
        Ok((end, a)) => match places::byte_at(s, a) {
            Err(k) => ZoneEnd::Refused(k),
            Ok((b, e)) => read_ending(s, e, pool, last, end, b),
        },
    }
}

// Whether end of time and no tail stand at a place, a byte each, and nothing behind them, as is usual. Checks and questions take no call for these.
pub fn is_untailed(s: &[u8], at: usize) -> bool
    requires { at ≤ length s.now }
    ensures { UntailedAt s.now at result }
{
    if s.len() - at != 2 {
        return false;
    }
    if s[at] != 1 {
        return false;
    }
    if s[at + 1] != 0 {
        return false;
    }
    true
}
