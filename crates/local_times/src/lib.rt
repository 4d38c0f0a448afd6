// Wall time to instants, of one zone: the instants of a listed interval and of a tail that read as a local time, one and two at most, so no
// years are searched.
#![tactic(auto)]

ghost use Rattle.std.specs.Prelude.{◌≡◌, ◌≤◌};
ghost use Rattle.recurrence.specs.Tails.{TailOk};
ghost use Rattle.local_times.specs.Instants.{candidate as candidate_of, tail_candidate};
ghost use Rattle.local_times.specs.View.{counted as counted_of, with_tail};

use base::{END, FIRST, LAST};
use intervals::Interval;
use recurrence::Tail;

// How many instants, the earliest and the latest as moments; all 0 where there are none.
#[derive(Clone, Copy)]
pub struct Tally {
    pub count: u64,
    pub earliest: u64,
    pub latest: u64,
}

// What a walk over intervals keeps: the interval read last, the instants in those before it, and the last start (end of time while there
// is none).
#[derive(Clone, Copy)]
pub struct LocalScan {
    pub held: Interval,
    pub tally: Tally,
    pub last: u64,
}

// The instant from start to before end that reads as the local time l at a wall offset, or 0, which is no instant.
pub fn candidate(l: u64, wall: u64, start: u64, end: u64) -> u64
    requires { wall ≤ 172800000 }
    ensures { result ≡ candidate_of l wall start end }
{
    if l < wall * 10000 {
        return 0;
    }
    let t = l - wall * 10000;
    if t < FIRST {
        return 0;
    }
    if LAST < t {
        return 0;
    }
    if t < start {
        return 0;
    }
    if t < end {
        return t;
    }
    0
}

// One instant more, later than those before, or none where t is 0.
pub fn counted(a: Tally, t: u64) -> Tally
    requires { a.count ≤ 4100 }
    ensures { result ≡ counted_of a t }
{
    if t == 0 {
        return a;
    }
    if a.count == 0 {
        return Tally {
            count: 1,
            earliest: t,
            latest: t,
        };
    }
    Tally {
        count: a.count + 1,
        earliest: a.earliest,
        latest: t,
    }
}

// The instant of the tail that reads as l at a wall offset that is in force then, or 0.
fn tail_candidate(l: u64, wall: u64, tail: Tail) -> u64
    requires { (wall ≤ 172800000) × TailOk tail }
    ensures { result ≡ tail_candidate l wall tail }
{
    let t = candidate(l, wall, tail.start, END);
    if t == 0 {
        return 0;
    }
    let x = recurrence::look_up(tail, t);
    if x.wall == wall {
        return t;
    }
    0
}

// The tail's instants behind those of the list. The larger offset gives the earlier one; two offsets that are equal give one.
pub fn with_tail(l: u64, a: Tally, tail: Tail) -> Tally
    requires { (a.count ≤ 4098) × TailOk tail }
    ensures { result ≡ with_tail l a tail }
{
    let standard = tail.offset;
    let daylight = standard + tail.savings - 86400000;
    if standard < daylight {
        let d = counted(a, tail_candidate(l, daylight, tail));
        return counted(d, tail_candidate(l, standard, tail));
    }
    let s = counted(a, tail_candidate(l, standard, tail));
    if daylight < standard {
        return counted(s, tail_candidate(l, daylight, tail));
    }
    s
}
