// A cursor at a listed interval of a zone, and at its first interval, all of the zone checked.
#![tactic(auto)]

ghost use Rattle.cursors.specs.Cursors.{IntervalsAt, FirstAt, OpenedAs, list_end, ListAt, Points, usual_cursor};
ghost use Rattle.std.specs.Prelude.{◌≡◌, ◌+◌, ◌≤◌, length};
ghost use Rattle.zones.specs.Intervals.{Holds};
ghost use Rattle.zones.specs.Lookup.{until as until_of};

use base::{END, Refusal};
use cursors::Cursor;
use intervals::Interval;
use zones::{Found, ZoneEnd, ZoneFront};

// A listed interval, which lasts until a moment.
fn until(i: Interval, end: u64) -> Found
    ensures { result ≡ until_of i end }
{
    Found {
        wall: i.wall,
        savings: i.savings,
        name: i.name,
        start: i.start,
        end: end,
    }
}

// Where the list ends.
fn list_end(ending: ZoneEnd) -> u64
    ensures { result ≡ list_end ending }
{
    match ending {
        ZoneEnd::Untailed => END,
        ZoneEnd::Tailed(m) => {
            let tail = m.tail;
            tail.start
        }
        ZoneEnd::Refused(_) => END,
    }
}

// A cursor at the interval i, where the `left` intervals behind it stand at a place.
pub fn at_interval(
    s: &[u8],
    pool: u64,
    i: Interval,
    left: u64,
    place: usize,
    ending: ZoneEnd,
) -> Cursor
    requires { ListAt pool s.now i left place ending }
    ensures { Points pool s.now ending result × Holds result.held i.start }
{
    if left == 0 {
        let end = list_end(ending);
        let held = until(i, end);
        return Cursor {
            held: held,
            left: 0,
            next: i,
            place: place,
        };
    }
    match next_intervals::read_interval(s, place, pool, i.start) {
        Ok((j, e)) => {
            let held = until(i, j.start);
            Cursor {
                held: held,
                left: left,
                next: j,
                place: e,
            }
        }
        // The zone was read to its end before.
        Err(_) => {
            let held = until(i, END);
            Cursor {
                held: held,
                left: 0,
                next: i,
                place: place,
            }
        }
    }
}

// The same where the next interval is one of five bytes and starts at m.
pub fn at_usual(s: &[u8], i: Interval, left: u64, place: usize, m: u64) -> Cursor
    requires { place + 5 ≤ length s.now }
    ensures { result ≡ usual_cursor s.now i left place m }
{
    let held = until(i, m);
    let j = interval_runs::short_interval(s, place + 2, m);
    Cursor {
        held: held,
        left: left,
        next: j,
        place: place + 5,
    }
}

// A cursor at the first of n intervals at a place, in a zone that was read to its end.
fn at_first(
    s: &[u8],
    place: usize,
    pool: u64,
    n: u64,
    ending: ZoneEnd,
) -> Result<(Cursor, ZoneEnd), Refusal>
    requires { FirstAt pool s.now n place ending }
    ensures { OpenedAs pool s.now result }
{
    match next_intervals::read_interval(s, place, pool, END) {
        // The zone was read to its end before.
        Err(k) => Err(k),
        Ok((i, e)) => Ok((at_interval(s, pool, i, n - 1, e, ending), ending)),
    }
}

// A zone whose n intervals stand at a place.
fn open_listed(s: &[u8], place: usize, pool: u64, n: u64) -> Result<(Cursor, ZoneEnd), Refusal>
    requires { IntervalsAt pool s.now n place }
    ensures { OpenedAs pool s.now result }
{
    match interval_scans::read_intervals(s, place, pool, n, 0, false) {
        Err(k) => Err(k),
        Ok((c, e, _)) => {
            let ending = zone_ends::read_end(s, e, pool, c.last);
            match ending {
                ZoneEnd::Refused(k) => Err(k),
                ZoneEnd::Untailed => at_first(s, place, pool, n, ending),
                ZoneEnd::Tailed(_) => at_first(s, place, pool, n, ending),
            }
        }
    }
}

// A cursor at the first interval of a zone, all of the zone checked; pool is the pool's count.
pub fn first(s: &[u8], pool: u64) -> Result<(Cursor, ZoneEnd), Refusal>
    ensures { OpenedAs pool s.now result }
{
    match zone_fronts::read_front(s, pool) {
        ZoneFront::Refused(k) => Err(k),
        ZoneFront::Fixed(_, offset, n) => {
            let held = Found {
                wall: offset,
                savings: 86400000,
                name: n,
                start: 0,
                end: END,
            };
            let none = Interval {
                start: 0,
                name: 0,
                wall: 0,
                savings: 0,
            };
            Ok((
                Cursor {
                    held: held,
                    left: 0,
                    next: none,
                    place: 0,
                },
                ZoneEnd::Untailed,
            ))
        }
        ZoneFront::Listed(_, n, a) => open_listed(s, a, pool, n),
    }
}
