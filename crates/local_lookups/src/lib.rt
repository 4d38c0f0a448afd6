// How many instants of a whole zone read as a local time, the earliest and the latest.
#![tactic(auto)]

ghost use Rattle.std.specs.Prelude.{◌≡◌, ◌≤◌, length, drop};
ghost use Rattle.base.specs.Parsed.{many};
ghost use Rattle.base.specs.Moment.{end_of_time};
ghost use Rattle.places.specs.Placed.{Stands};
ghost use Rattle.intervals.specs.Interval.{parse_interval, start_of};
ghost use Rattle.zones.specs.Parse.{parse_zone};
ghost use Rattle.local_times.specs.View.{advance as advance_of, scan_of, of_scan, with_last, day_before, IntervalsAt, IntervalsTo, answer_of};

use base::{Coded, END, Refusal};
use intervals::Interval;
use local_times::{LocalScan, Tally};
use zones::{ZoneEnd, ZoneFront};

// The next interval: now the end of the one before it is known.
fn advance(l: u64, c: LocalScan, i: Interval) -> LocalScan
    requires { (c.held.wall ≤ 172800000) × (c.tally.count ≤ 4100) }
    ensures { result ≡ advance_of l c i }
{
    let held = c.held;
    let t = local_times::candidate(l, held.wall, held.start, i.start);
    let tally = local_times::counted(c.tally, t);
    LocalScan {
        held: i,
        tally: tally,
        last: i.start,
    }
}

// n intervals from the place at on. The first turn counts in an interval that holds nothing.
fn read_intervals(s: &[u8], at: usize, pool: u64, n: u64, l: u64) -> Coded<LocalScan>
    requires { (at ≤ length s.now) × (n ≤ 4096) }
    ensures { Stands s.now (scan_of l (many (parse_interval pool) start_of n end_of_time (drop at s.now))) (of_scan result) }
{
    let mut left = n;
    let mut place = at;
    let mut c = LocalScan {
        held: Interval {
            start: 0,
            name: 0,
            wall: 0,
            savings: 0,
        },
        tally: Tally {
            count: 0,
            earliest: 0,
            latest: 0,
        },
        last: END,
    };
    while 0 < left {
        let item = next_intervals::read_interval(s, place, pool, c.last);
        match item {
            Err(k) => {
                return Err(k);
            }
            Ok((i, e)) => {
                left -= 1;
                place = e;
                c = advance(l, c, i);
            }
        }
    }
    Ok((c, place))
}

// The instants of a list that ends at a moment.
fn with_last(l: u64, c: LocalScan, end: u64) -> Tally
    requires { (c.held.wall ≤ 172800000) × (c.tally.count ≤ 4100) }
    ensures { result ≡ with_last l c end }
{
    let held = c.held;
    let t = local_times::candidate(l, held.wall, held.start, end);
    local_times::counted(c.tally, t)
}

// A day before a local time, which has a day added.
fn day_before(l: u64) -> u64
    ensures { result ≡ day_before l }
{
    if l < 1728000000000 {
        return 0;
    }
    l - 1728000000000
}

// A zone whose intervals end at a place and left c.
fn find_behind(s: &[u8], at: usize, pool: u64, l: u64, c: LocalScan) -> Result<Tally, Refusal>
    requires { IntervalsTo pool l s.now at c }
    ensures { result ≡ answer_of l (parse_zone pool s.now) }
{
    match zone_ends::read_end(s, at, pool, c.last) {
        ZoneEnd::Refused(k) => Err(k),
        ZoneEnd::Untailed => Ok(with_last(l, c, END)),
        ZoneEnd::Tailed(m) => {
            let tail = m.tail;
            let a = with_last(l, c, tail.start);
            Ok(local_times::with_tail(l, a, tail))
        }
    }
}

// A zone whose n intervals stand at a place, which are read one by one.
fn find_each(s: &[u8], at: usize, pool: u64, n: u64, l: u64) -> Result<Tally, Refusal>
    requires { IntervalsAt pool s.now n at }
    ensures { result ≡ answer_of l (parse_zone pool s.now) }
{
    let (c, e) = read_intervals(s, at, pool, n, l)?;
    find_behind(s, e, pool, l, c)
}

// A zone whose n intervals stand at a place. Mostly none starts within a day of the local time: then the interval that holds the instant a day before
// is the one that counts, and it is found as for a question, in runs. Where one does, all are read once more, one by one. Where they
// take more than eight bytes each, and more than a few do, there are few runs, and they are read one by one at once.
fn find_listed(s: &[u8], at: usize, pool: u64, n: u64, l: u64) -> Result<Tally, Refusal>
    requires { IntervalsAt pool s.now n at }
    ensures { result ≡ answer_of l (parse_zone pool s.now) }
{
    if 8 * n + 32 < (s.len() - at) as u64 {
        return find_each(s, at, pool, n, l);
    }
    match interval_scans::read_intervals(s, at, pool, n, day_before(l), false) {
        Err(k) => Err(k),
        Ok((c, e, _)) => {
            if c.end <= l {
                return find_each(s, at, pool, n, l);
            }
            let held = c.held;
            let left = LocalScan {
                held: held,
                tally: Tally {
                    count: 0,
                    earliest: 0,
                    latest: 0,
                },
                last: c.last,
            };
            find_behind(s, e, pool, l, left)
        }
    }
}

// The instants of a zone that read as the local time l, all of the zone checked; pool is the pool's count. The data are passed on as a part of
// themselves, as zone_fronts::read_usual_front does.
pub fn find(s: &[u8], pool: u64, l: u64) -> Result<Tally, Refusal>
    ensures { result ≡ answer_of l (parse_zone pool s.now) }
{
    match zone_fronts::read_front(&s[0..], pool) {
        ZoneFront::Refused(k) => Err(k),
        ZoneFront::Fixed(_, offset, _) => {
            let t = local_times::candidate(l, offset, 0, END);
            let none = Tally {
                count: 0,
                earliest: 0,
                latest: 0,
            };
            Ok(local_times::counted(none, t))
        }
        ZoneFront::Listed(_, n, a) => find_listed(s, a, pool, n, l),
    }
}
