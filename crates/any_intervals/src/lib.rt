// An interval of a zone, code by code.
#![tactic(auto)]

ghost use Rattle.std.specs.Prelude.{◌≡◌, ◌+◌, ◌≤◌, length, drop};
ghost use Rattle.base.specs.Parsed.{parse};
ghost use Rattle.offsets.specs.Offset.{in_day};
ghost use Rattle.transitions.specs.Transition.{read_moment};
ghost use Rattle.transitions.specs.Later.{Later};
ghost use Rattle.places.specs.Placed.{Stands, of_read};
ghost use Rattle.intervals.specs.Interval.{standard_sum, rises as rises_of, parse_details, parse_interval};
ghost use Rattle.intervals.specs.Scan.{of_interval};

use base::{Coded, END, FIRST, LAST, Refusal};
use intervals::Interval;
use transitions::HOUR;

fn rises(prev: u64, m: u64) -> bool
    ensures { result ≡ rises_of prev m }
{
    if prev == END {
        return m == 0;
    }
    if prev < m {
        return m < END;
    }
    false
}

// Whether the standard offset, wall minus savings, is inside 24 hours.
fn standard_ok(wall: u64, savings: u64) -> bool
    requires { (wall ≤ 172799999) × (savings ≤ 172799999) }
    ensures { result ≡ in_day (standard_sum wall savings) }
{
    if wall + 86400000 <= savings {
        return false;
    }
    wall < savings + 86400000
}

// What stands behind an interval's start m.
fn read_details(s: &[u8], at: usize, pool: u64, m: u64) -> Coded<Interval>
    requires { at ≤ length s.now }
    ensures { Stands s.now (parse_details pool m (drop at s.now)) (of_interval result) }
{
    match places::name_at(s, at, pool) {
        Err(k) => Err(k),
        Ok((n, a)) => match places::sum_at(s, a) {
            Err(k) => Err(k),
            Ok((w, b)) => match places::sum_at(s, b) {
                Err(k) => Err(k),
                Ok((v, e)) => {
                    if standard_ok(w, v) {
                        return Ok((
                            Interval {
                                start: m,
                                name: n,
                                wall: w,
                                savings: v,
                            },
                            e,
                        ));
                    }
                    Err(Refusal::BadInterval)
                }
            },
        },
    }
}

// The same. Offsets take no call where bytes enough are left for any two of them.
fn usual_details(s: &[u8], at: usize, pool: u64, m: u64) -> Coded<Interval>
    requires { at ≤ length s.now }
    ensures { Stands s.now (parse_details pool m (drop at s.now)) (of_interval result) }
{
    let (n, a) = places::name_at(s, at, pool)?;
    if 6 < s.len() - a {
        let w = places::usual_sum(s, a);
        if w != 0 {
            let b = a + places::usual_size(s[a]);
            let v = places::usual_sum(s, b);
            if v != 0 {
                if standard_ok(w, v) {
                    return Ok((
                        Interval {
                            start: m,
                            name: n,
                            wall: w,
                            savings: v,
                        },
                        b + places::usual_size(s[b]),
                    ));
                }
                return Err(Refusal::BadInterval);
            }
        }
    }
    read_details(s, at, pool, m)
}

// The instant of two bytes of hours after prev; 0 where there is none.
fn hours_start(s: &[u8], at: usize, prev: u64) -> u64
    requires { at + 2 ≤ length s.now }
    ensures { Later prev (drop at s.now) 2 result }
{
    if prev < FIRST {
        return 0;
    }
    if LAST < prev {
        return 0;
    }
    let v = interval_runs::hours_at(s, at);
    if v == 0 {
        return 0;
    }
    let m = prev + v * HOUR;
    if LAST < m {
        return 0;
    }
    m
}

// A transition at a place, as places::moment_at has it. One in ticks takes no call.
pub fn moment_at(s: &[u8], at: usize, prev: u64) -> Coded<u64>
    requires { at ≤ length s.now }
    ensures { Stands s.now (parse (read_moment prev) (drop at s.now)) (of_read result) }
{
    if 9 <= s.len() - at {
        if s[at] == 2 {
            let t = interval_runs::ticks_at(s, at + 1);
            if FIRST <= t {
                if t <= LAST {
                    return Ok((t, at + 9));
                }
            }
        }
    }
    places::moment_at(s, at, prev)
}

// An interval's start. The mark, with which a list begins, ticks and hours in two bytes take no call.
fn start_at(s: &[u8], at: usize, prev: u64) -> Coded<u64>
    requires { at ≤ length s.now }
    ensures { Stands s.now (parse (read_moment prev) (drop at s.now)) (of_read result) }
{
    if s.len() - at < 2 {
        return places::moment_at(s, at, prev);
    }
    if s[at] == 0 {
        return Ok((0, at + 1));
    }
    let m = hours_start(s, at, prev);
    if m != 0 {
        return Ok((m, at + 2));
    }
    moment_at(s, at, prev)
}

// An interval after the start prev, code by code.
pub fn read_any_interval(s: &[u8], at: usize, pool: u64, prev: u64) -> Coded<Interval>
    requires { at ≤ length s.now }
    ensures { Stands s.now (parse_interval pool prev (drop at s.now)) (of_interval result) }
{
    let (m, e) = moment_at(s, at, prev)?;
    if rises(prev, m) {
        return read_details(s, e, pool, m);
    }
    Err(Refusal::BadInterval)
}

// The same, for the scan of a list: the usual ones take no call. It has one caller, so that the compiler puts it there whole.
pub fn read_usual_interval(s: &[u8], at: usize, pool: u64, prev: u64) -> Coded<Interval>
    requires { at ≤ length s.now }
    ensures { Stands s.now (parse_interval pool prev (drop at s.now)) (of_interval result) }
{
    let (m, e) = start_at(s, at, prev)?;
    if rises(prev, m) {
        return usual_details(s, e, pool, m);
    }
    Err(Refusal::BadInterval)
}
