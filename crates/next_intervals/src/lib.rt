// The next interval of a list, for a reader that needs each of them: local times, starts, cursors.
#![tactic(auto)]

ghost use Rattle.std.specs.Prelude.{◌≤◌, length, drop};
ghost use Rattle.places.specs.Placed.{Stands};
ghost use Rattle.intervals.specs.Interval.{parse_interval};
ghost use Rattle.intervals.specs.Scan.{of_interval};
ghost use Rattle.next_intervals.specs.Next.{NextAt};

use base::{Coded, FIRST, LAST};
use intervals::Interval;

// The start of an interval of five bytes, the usual one, behind prev; 0 where other codes stand there. It is put in place in its readers; a whole
// interval goes through memory.
pub fn short_next(s: &[u8], at: usize, pool: u64, prev: u64) -> u64
    requires { at ≤ length s.now }
    ensures { NextAt s.now pool at prev result }
{
    if s.len() - at < 5 {
        return 0;
    }
    if prev < FIRST {
        return 0;
    }
    if LAST < prev {
        return 0;
    }
    let m = interval_runs::step(s, at, pool, prev);
    if LAST < m {
        return 0;
    }
    m
}

// An interval after the start prev, as read_any_interval has it. One of five bytes takes no call.
pub fn read_interval(s: &[u8], at: usize, pool: u64, prev: u64) -> Coded<Interval>
    requires { at ≤ length s.now }
    ensures { Stands s.now (parse_interval pool prev (drop at s.now)) (of_interval result) }
{
    let m = short_next(s, at, pool, prev);
    if m != 0 {
        return Ok((interval_runs::short_interval(s, at + 2, m), at + 5));
    }
    any_intervals::read_any_interval(s, at, pool, prev)
}
