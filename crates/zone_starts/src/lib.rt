// The listed interval starts of one zone, put in a lent table in ticks since 1970. The zone is checked first, so that a refusal writes nothing.
#![tactic(auto)]

ghost use Rattle.std.specs.Prelude.{◌≡◌, ◌≤◌, length};
ghost use Rattle.zones.specs.Parse.{parse_zone};
ghost use Rattle.zone_starts.specs.Starts.{Fills};
ghost use Rattle.zone_starts.specs.View.{ListedAt, CheckedAt, list_of, over};

use base::{END, Refusal};
use zones::ZoneFront;

// How many starts there are; or that the table is too short; or the zone's fault.
#[derive(Clone, Copy)]
pub enum ZoneStarts {
    Filled(usize),
    Short,
    Refused(Refusal),
}

// The starts of the n intervals at a place, which were checked.
fn put_starts(s: &[u8], at: usize, pool: u64, n: u64, out: &mut [i64])
    requires { CheckedAt pool s.now n at × (n ≤ length out.old) }
    ensures { out.new ≡ over (list_of pool s.now n at) out.old }
{
    let mut left = n;
    let mut i = 0;
    let mut place = at;
    let mut last = END;
    while 0 < left {
        let m = next_intervals::short_next(s, place, pool, last);
        if m != 0 {
            out[i] = signed::ticks(m);
            left -= 1;
            i += 1;
            place += 5;
            last = m;
            continue;
        }
        let item = next_intervals::read_interval(s, place, pool, last);
        match item {
            Err(_) => {
                return;
            }
            Ok((x, e)) => {
                out[i] = signed::ticks(x.start);
                left -= 1;
                i += 1;
                place = e;
                last = x.start;
            }
        }
    }
}

// A zone whose n intervals stand at a place.
fn fill_listed(s: &[u8], at: usize, pool: u64, n: u64, out: &mut [i64]) -> ZoneStarts
    requires { ListedAt pool s.now n at }
    ensures { Fills (parse_zone pool s.now) out.old result out.new }
{
    match zone_reads::check(s, pool) {
        Err(k) => ZoneStarts::Refused(k),
        Ok(_) => {
            if (out.len() as u64) < n {
                return ZoneStarts::Short;
            }
            put_starts(s, at, pool, n, out);
            ZoneStarts::Filled(n as usize)
        }
    }
}

// The starts of a zone; pool is the pool's count.
pub fn fill(s: &[u8], pool: u64, out: &mut [i64]) -> ZoneStarts
    ensures { Fills (parse_zone pool s.now) out.old result out.new }
{
    match zone_fronts::read_front(s, pool) {
        ZoneFront::Refused(k) => ZoneStarts::Refused(k),
        ZoneFront::Fixed(_, _, _) => {
            if out.len() == 0 {
                return ZoneStarts::Short;
            }
            out[0] = signed::ticks(0);
            ZoneStarts::Filled(1)
        }
        ZoneFront::Listed(_, n, at) => fill_listed(s, at, pool, n, out),
    }
}
