// A whole zone, read once from front to back: its check, which keeps nothing of its intervals, and the reading, which keeps what an instant needs.
#![tactic(auto)]

ghost use Rattle.std.specs.Prelude.{◌≡◌, suc, ◌≤◌, length, drop};
ghost use Rattle.base.specs.Pick.{both};
ghost use Rattle.base.specs.Moment.{end_of_time};
ghost use Rattle.pieces.specs.Form.{pieces_preferred, data_preferred};
ghost use Rattle.zones.specs.Parse.{parse_intervals, parse_zone};
ghost use Rattle.zones.specs.Lookup.{verdict_of};
ghost use Rattle.lookups.specs.View.{form_of, read_of};

use base::Refusal;
use lookups::ZoneRead;
use zones::{ZoneEnd, ZoneFront};

// The n intervals at a place and what stands behind them.
fn check_listed(
    s: &[u8],
    at: usize,
    pool: u64,
    id: u64,
    n: u64,
    asked: bool,
) -> Result<(u64, bool), Refusal>
    requires { at ≤ length s.now }
    ensures { result ≡ form_of (both asked (pieces_preferred (suc n) end_of_time (drop at s.now))) (parse_intervals pool id n (drop at s.now)) }
{
    match interval_scans::read_intervals(s, at, pool, n, 0, asked) {
        Err(k) => Err(k),
        Ok((c, e, before)) => {
            let form = pieces::code_preferred(s, e, c.last, before);
            if zone_ends::is_untailed(s, e) {
                return Ok((id, form));
            }
            match zone_ends::read_end(s, e, pool, c.last) {
                ZoneEnd::Refused(k) => Err(k),
                ZoneEnd::Untailed => Ok((id, form)),
                ZoneEnd::Tailed(_) => Ok((id, form)),
            }
        }
    }
}

// The check of a zone, which learns from the same walk whether the data are in their preferred form, where that is asked.
pub fn check_form(s: &[u8], pool: u64, asked: bool) -> Result<(u64, bool), Refusal>
    ensures { result ≡ form_of (both asked (data_preferred s.now)) (parse_zone pool s.now) }
{
    match zone_fronts::read_usual_front(s, pool) {
        ZoneFront::Refused(k) => Err(k),
        ZoneFront::Fixed(id, _, _) => Ok((id, asked)),
        ZoneFront::Listed(id, n, a) => check_listed(s, a, pool, id, n, asked),
    }
}

// The check of a zone.
pub fn check(s: &[u8], pool: u64) -> Result<u64, Refusal>
    ensures { result ≡ verdict_of (parse_zone pool s.now) }
{
    let (id, _) = check_form(s, pool, false)?;
    Ok(id)
}

// The n intervals at a place and what stands behind them.
fn read_listed(s: &[u8], at: usize, pool: u64, id: u64, n: u64, t: u64, preferred: bool) -> ZoneRead
    requires { at ≤ length s.now }
    ensures { result ≡ read_of t (both preferred (pieces_preferred (suc n) end_of_time (drop at s.now))) (parse_intervals pool id n (drop at s.now)) }
{
    match interval_scans::read_intervals(s, at, pool, n, t, preferred) {
        Err(k) => ZoneRead::Refused(k),
        Ok((c, e, before)) => {
            let form = pieces::code_preferred(s, e, c.last, before);
            if zone_ends::is_untailed(s, e) {
                return ZoneRead::Listed(id, c, form);
            }
            match zone_ends::read_end(s, e, pool, c.last) {
                ZoneEnd::Refused(k) => ZoneRead::Refused(k),
                ZoneEnd::Untailed => ZoneRead::Listed(id, c, form),
                ZoneEnd::Tailed(m) => ZoneRead::Tailed(id, c, m, form),
            }
        }
    }
}

// A whole zone; the forms of its transitions are looked at where `preferred` says so.
pub fn read_zone(s: &[u8], pool: u64, t: u64, preferred: bool) -> ZoneRead
    ensures { result ≡ read_of t (both preferred (data_preferred s.now)) (parse_zone pool s.now) }
{
    match zone_fronts::read_usual_front(s, pool) {
        ZoneFront::Refused(k) => ZoneRead::Refused(k),
        ZoneFront::Fixed(id, offset, n) => ZoneRead::Fixed(id, offset, n, preferred),
        ZoneFront::Listed(id, n, a) => read_listed(s, a, pool, id, n, t, preferred),
    }
}
