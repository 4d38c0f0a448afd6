// The listed intervals of a zone, read one after the other; what an instant needs of them is kept on the way.
#![tactic(auto)]

ghost use Rattle.std.specs.Prelude.{◌≡◌, ◌≤◌, length, drop};
ghost use Rattle.base.specs.Pick.{both};
ghost use Rattle.base.specs.Parsed.{many};
ghost use Rattle.base.specs.Moment.{end_of_time};
ghost use Rattle.places.specs.Placed.{Stands};
ghost use Rattle.pieces.specs.Form.{code_preferred};
ghost use Rattle.intervals.specs.Interval.{parse_interval, start_of};
ghost use Rattle.intervals.specs.Scan.{of_scan, advance as advance_of, scan_of, FormOf};
ghost use Rattle.interval_scans.specs.Start.{StartAt};

use base::{END, Refusal};
use intervals::{Interval, Scan};

fn advance(t: u64, c: Scan, i: Interval) -> Scan
    ensures { result ≡ advance_of t c i }
{
    let mut held = c.held;
    let mut end = c.end;
    if END <= end {
        if t < i.start {
            end = i.start;
        } else {
            held = i;
            end = END;
        }
    }
    Scan {
        held: held,
        end: end,
        last: i.start,
    }
}

// Whether the start m at a place, after prev, is in the writer's form, where all before it are: one of at most three bytes is, and one in ticks is by
// its moment.
fn start_preferred(s: &[u8], at: usize, prev: u64, m: u64, before: bool) -> bool
    requires { StartAt s.now at prev m }
    ensures { result ≡ both before (code_preferred prev (drop at s.now)) }
{
    if before {
        if s.len() - at < 3 {
            return pieces::code_preferred(s, at, prev, before);
        }
        if s[at] == 2 {
            return transition_writers::moment_size(prev, m) == 9;
        }
        if s[at] < 128 {
            return true;
        }
        if s[at + 1] < 128 {
            return true;
        }
        if s[at + 2] < 128 {
            return true;
        }
        return pieces::code_preferred(s, at, prev, before);
    }
    false
}

// n intervals from the place at on, the place behind them, and whether their starts are in the writer's form, which is looked at where `preferred` says so. Those whose
// name and offsets take a byte each, the usual ones, are read in runs, of which only the last is kept; a run has no start that changes the form.
pub fn read_intervals(
    s: &[u8],
    at: usize,
    pool: u64,
    n: u64,
    t: u64,
    preferred: bool,
) -> Result<(Scan, usize, bool), Refusal>
    requires { at ≤ length s.now }
    ensures { Stands s.now (scan_of t (many (parse_interval pool) start_of n end_of_time (drop at s.now))) (of_scan result) × FormOf s.now n at preferred result }
{
    let mut form = preferred;
    let mut left = n;
    let mut place = at;
    let mut c = Scan {
        held: Interval {
            start: 0,
            name: 0,
            wall: 0,
            savings: 0,
        },
        end: END,
        last: END,
    };
    while 0 < left {
        let stop = interval_runs::stop_at(c.end, t);
        let r = interval_runs::read_run(s, place, pool, stop, left, c.last, form);
        let e = r.place;
        if place < e {
            let i = interval_runs::short_interval(s, e - 3, r.last);
            left = r.left;
            place = e;
            c = advance(t, c, i);
        } else {
            let item = any_intervals::read_usual_interval(s, place, pool, c.last);
            match item {
                Err(k) => {
                    return Err(k);
                }
                Ok((i, e)) => {
                    form = start_preferred(s, place, c.last, i.start, form);
                    left -= 1;
                    place = e;
                    c = advance(t, c, i);
                }
            }
        }
    }
    Ok((c, place, form))
}
