// Listed intervals whose name and offsets take a byte each, the usual ones, read in a row: an instant needs only the last of them. Those of five
// bytes, nearly all, have a loop of their own, and so have those in ticks where no forms are asked for.
#![tactic(auto)]

ghost use Rattle.std.specs.Prelude.{◌≡◌, ◌+◌, ◌≤◌, ◌-◌, ◌<◌, length, true, false};
ghost use Rattle.intervals.specs.Short.{short_interval, short_ok};
ghost use Rattle.base.specs.Moment.{Finite, last_instant};
ghost use Rattle.places.specs.Long.{start_size};
ghost use Rattle.interval_runs.specs.Run.{hours_at, details_at, SameDetails, step_of, Behind, long_step_of, run_of, stop_of, Fitting, TicksAt, TicksStep, Passed, Stopped};

use base::{END, FIRST, LAST};
use intervals::Interval;
use transitions::HOUR;

// Whether the codes of a byte each at a place have a name of the pool and a standard offset inside 24 hours. In half hours two bytes tell that;
// their difference, with what keeps it above 0, is in one range, which is one test of the machine's.
pub fn short_ok(s: &[u8], at: usize, pool: u64) -> bool
    requires { at + 3 ≤ length s.now }
    ensures { result ≡ short_ok s.now pool at }
{
    if pool <= s[at] as u64 {
        return false;
    }
    let standard = s[at + 1] as u64 + 303 - s[at + 2] as u64;
    if standard < 256 {
        return false;
    }
    standard < 351
}

// An interval with the start m and the codes of a byte each at a place.
pub fn short_interval(s: &[u8], at: usize, m: u64) -> Interval
    requires { at + 3 ≤ length s.now }
    ensures { result ≡ short_interval s.now at m }
{
    Interval {
        start: m,
        name: s[at] as u64,
        wall: s[at + 1] as u64 * 1800000,
        savings: s[at + 2] as u64 * 1800000,
    }
}

// Where a run ends: how many intervals are left, the place behind it, and its last start.
#[derive(Clone, Copy)]
pub struct Run {
    pub left: u64,
    pub place: usize,
    pub last: u64,
}

// The hours of a start of two bytes; 0 where no such start stands there.
pub fn hours_at(s: &[u8], at: usize) -> u64
    requires { at + 2 ≤ length s.now }
    ensures { (result ≡ hours_at s.now at) × (result ≤ 16383) }
{
    let b = s[at] as u64;
    if b < 128 {
        return 0;
    }
    let d = s[at + 1] as u64;
    if d == 0 {
        return 0;
    }
    if 127 < d {
        return 0;
    }
    b % 128 + 128 * d
}

// Whether a name of the pool and two offsets stand at a place, in a byte each.
fn details_ok(s: &[u8], at: usize, pool: u64) -> bool
    requires { at + 3 ≤ length s.now }
    ensures { result ≡ details_at s.now pool at }
{
    if places::short_details(s, at) {
        return short_ok(s, at, pool);
    }
    false
}

// Whether the three bytes at a place are those at another. Two of them are compared as one number.
fn same_details(s: &[u8], at: usize, old: usize) -> bool
    requires { (at + 3 ≤ length s.now) × (old + 3 ≤ length s.now) }
    ensures { SameDetails s.now at old result }
{
    let x = s[at] as u64 + 256 * s[at + 1] as u64;
    let y = s[old] as u64 + 256 * s[old + 1] as u64;
    if x != y {
        return false;
    }
    if s[at + 2] != s[old + 2] {
        return false;
    }
    true
}

// The start of an interval of five bytes behind prev; 0 where other codes stand there.
pub fn step(s: &[u8], at: usize, pool: u64, prev: u64) -> u64
    requires { (at + 5 ≤ length s.now) × (prev ≤ last_instant) }
    ensures { result ≡ step_of s.now pool at prev }
{
    let v = hours_at(s, at);
    if v == 0 {
        return 0;
    }
    if details_ok(s, at + 2, pool) {
        return prev + v * HOUR;
    }
    0
}

// The same behind two others: standard and daylight time take turns, so the details are mostly those of the one before the last, which were judged.
fn next_step(s: &[u8], at: usize, pool: u64, prev: u64) -> u64
    requires { (at + 5 ≤ length s.now) × (prev ≤ last_instant) × Behind s.now pool at }
    ensures { result ≡ step_of s.now pool at prev }
{
    let v = hours_at(s, at);
    if v == 0 {
        return 0;
    }
    if same_details(s, at + 2, at - 8) {
        return prev + v * HOUR;
    }
    if details_ok(s, at + 2, pool) {
        return prev + v * HOUR;
    }
    0
}

// The same of an interval whose start takes n bytes, more than two. Where `form` says so, one that isn't in the writer's form is left out.
fn long_step(s: &[u8], at: usize, n: usize, pool: u64, prev: u64, form: bool) -> u64
    requires { (at + n + 3 ≤ length s.now) × Finite prev × (n ≡ start_size s.now at) × (n ≡ 2 → ⊥) }
    ensures { result ≡ long_step_of s.now pool form at n prev }
{
    if places::short_details(s, at + n) {
        if short_ok(s, at + n, pool) {
            let m = places::long_start(s, at, n, prev);
            if m == 0 {
                return 0;
            }
            if form {
                if pieces::code_size(prev, m, n) != n {
                    return 0;
                }
            }
            return m;
        }
    }
    0
}

// The last start that a run may have, where end is the first start after t, or end of time while there is none.
pub fn stop_at(end: u64, t: u64) -> u64
    ensures { result ≡ stop_of end t }
{
    if end < END {
        return LAST;
    }
    if LAST < t {
        return LAST;
    }
    t
}

// How many intervals of so many bytes each may stand in so many bytes, at most n.
fn fitting(n: u64, room: usize, size: usize) -> u64
    requires { 0 < size }
    ensures { Fitting n room size result }
{
    let k = (room / size) as u64;
    if n < k {
        return n;
    }
    k
}

// The part of a run that is of five bytes each, behind two such. No start is after stop, so that the range of an instant needs no test.
fn read_more(s: &[u8], pool: u64, stop: u64, from: Run) -> Run
    requires { (from.place ≤ length s.now) × (stop ≤ last_instant) × Finite from.last × Behind s.now pool from.place }
    ensures { Stopped s.now pool stop from result }
{
    let n = fitting(from.left, s.len() - from.place, 5);
    let rest = from.left - n;
    let mut left = n;
    let mut place = from.place;
    let mut last = from.last;
    while 0 < left {
        let m = next_step(s, place, pool, last);
        if m == 0 {
            break;
        }
        if stop < m {
            break;
        }
        left -= 1;
        place += 5;
        last = m;
    }
    Run {
        left: rest + left,
        place: place,
        last: last,
    }
}

// The part of a run that is of five bytes each, from where one stands.
fn read_fives(s: &[u8], pool: u64, stop: u64, from: Run) -> Run
    requires { (from.place ≤ length s.now) × (stop ≤ last_instant) × Finite from.last }
    ensures { Stopped s.now pool stop from result }
{
    let mut left = from.left;
    let mut place = from.place;
    let mut last = from.last;
    let mut i: u64 = 0;
    while i < 2 {
        if left == 0 {
            return Run {
                left: left,
                place: place,
                last: last,
            };
        }
        if s.len() - place < 5 {
            return Run {
                left: left,
                place: place,
                last: last,
            };
        }
        let m = step(s, place, pool, last);
        if m == 0 {
            return Run {
                left: left,
                place: place,
                last: last,
            };
        }
        if stop < m {
            return Run {
                left: left,
                place: place,
                last: last,
            };
        }
        left -= 1;
        place += 5;
        last = m;
        i += 1;
    }
    read_more(
        s,
        pool,
        stop,
        Run {
            left: left,
            place: place,
            last: last,
        },
    )
}

// The instant of the ticks in eight bytes, where it is one; any number outside the instants else. Four bytes and four become one load.
pub fn ticks_at(s: &[u8], at: usize) -> u64
    requires { at + 8 ≤ length s.now }
    ensures { TicksAt s.now at result }
{
    let high = count_readers::four_at(s, at);
    let low = count_readers::four_at(s, at + 4);
    let raw = high * 4294967296 + low;
    if raw < 17699160297709551616 {
        return raw + 747583776000000000;
    }
    raw - 17699160297709551616
}

// The start of an interval in ticks behind prev, where old are details that were judged; 0 where there is none.
fn ticks_step(s: &[u8], at: usize, old: usize, pool: u64, prev: u64) -> u64
    requires { (at + 12 ≤ length s.now) × (old + 3 ≤ length s.now) × Finite prev × (details_at s.now pool old ≡ true) }
    ensures { TicksStep s.now pool at prev result }
{
    if s[at] != 2 {
        return 0;
    }
    let t = ticks_at(s, at + 1);
    if t <= prev {
        return 0;
    }
    if same_details(s, at + 9, old) {
        return t;
    }
    if details_ok(s, at + 9, pool) {
        return t;
    }
    0
}

// The part of a run that is in ticks, behind an interval with details of a byte each.
fn read_ticks(s: &[u8], pool: u64, stop: u64, from: Run) -> Run
    requires { (from.place ≤ length s.now) × (stop ≤ last_instant) × Finite from.last × (3 ≤ from.place) × (details_at s.now pool (from.place - 3) ≡ true) }
    ensures { Passed s.now pool false stop from result }
{
    let n = fitting(from.left, s.len() - from.place, 12);
    let rest = from.left - n;
    let mut left = n;
    let mut place = from.place;
    let mut old = from.place - 3;
    let mut last = from.last;
    while 0 < left {
        let m = ticks_step(s, place, old, pool, last);
        if m == 0 {
            break;
        }
        if stop < m {
            break;
        }
        left -= 1;
        old = place - 3;
        place += 12;
        last = m;
    }
    Run {
        left: rest + left,
        place: place,
        last: last,
    }
}

// At most n intervals from the place at on, behind the start prev, none of which starts after stop.
pub fn read_run(s: &[u8], at: usize, pool: u64, stop: u64, n: u64, prev: u64, form: bool) -> Run
    requires { (at ≤ length s.now) × (stop ≤ last_instant) }
    ensures { result ≡ run_of s.now pool form stop n at prev }
{
    let mut r = Run {
        left: n,
        place: at,
        last: prev,
    };
    if prev < FIRST {
        return r;
    }
    if LAST < prev {
        return r;
    }
    while 0 < r.left {
        r = read_fives(s, pool, stop, r);
        if r.left == 0 {
            return r;
        }
        let left = s.len() - r.place;
        if left < 5 {
            return r;
        }
        let k = places::start_size(s, r.place);
        if k == 2 {
            return r;
        }
        if left < k + 3 {
            return r;
        }
        let start = long_step(s, r.place, k, pool, r.last, form);
        if start == 0 {
            return r;
        }
        if stop < start {
            return r;
        }
        r = Run {
            left: r.left - 1,
            place: r.place + (k + 3),
            last: start,
        };
        if k == 9 {
            if !form {
                r = read_ticks(s, pool, stop, r);
            }
        }
    }
    r
}
