// The yearly rules of a zone's tail, and the tail's intervals. A moment is a count of 100 ns ticks since 1 January of year -399, a
// year is counted from there, and an offset is in milliseconds with 86,400,000 added, as in the file.
#![tactic(auto)]

ghost use Rattle.std.specs.Prelude.{◌≡◌, ◌≤◌};
ghost use Rattle.base.specs.Moment.{Finite};
ghost use Rattle.rules.specs.Rules.{RuleOk};
ghost use Rattle.occurrences.specs.Rules.{occurrence};
ghost use Rattle.recurrence.specs.Search.{around};
ghost use Rattle.recurrence.specs.Tails.{TailOk, lookup};

use rules::Rule;

#[derive(Clone, Copy)]
pub struct Tail {
    // a moment
    pub start: u64,
    // of standard time
    pub offset: u64,
    // of daylight time
    pub savings: u64,
    pub standard: Rule,
    pub daylight: Rule,
}

#[derive(Clone, Copy)]
pub struct Interval {
    // daylight time is in force, else standard time
    pub daylight: bool,
    pub wall: u64,
    pub savings: u64,
    pub start: u64,
    pub end: u64,
}

// The occurrences of a rule around an instant: the latest at or before it, the earliest after it.
#[derive(Clone, Copy)]
pub struct Occurrences {
    pub last: u64,
    pub next: u64,
}

const DAY: u64 = 864000000000;

// The occurrences of a rule around t. They fall from two years before the year of t to two years after it, mostly in the year of t and the one
// before or after it, so the year of t is looked at first.
fn occurrences_at(r: Rule, offset: u64, t: u64) -> Occurrences
    requires { Finite t × (offset ≤ 172800000) × RuleOk r }
    ensures { result ≡ around (occurrence r offset) t }
{
    let y0 = dates::year_of(t / DAY) - 2;
    let y1 = y0 + 1;
    let y2 = y1 + 1;
    let b = occurrences::occurrence_in(r, offset, y2);
    if t < b {
        let a = occurrences::occurrence_in(r, offset, y1);
        if t < a {
            return Occurrences {
                last: occurrences::occurrence_in(r, offset, y0),
                next: a,
            };
        }
        return Occurrences { last: a, next: b };
    }
    let y3 = y2 + 1;
    let c = occurrences::occurrence_in(r, offset, y3);
    if t < c {
        return Occurrences { last: b, next: c };
    }
    Occurrences {
        last: c,
        next: occurrences::occurrence_in(r, offset, y3 + 1),
    }
}

// The tail's interval that holds t.
pub fn look_up(tail: Tail, t: u64) -> Interval
    requires { Finite t × TailOk tail }
    ensures { result ≡ lookup tail t }
{
    let offset = tail.offset;
    let wall = offset + tail.savings - 86400000;
    let standard = tail.standard;
    let daylight = tail.daylight;
    let s = occurrences_at(
        standard,
        occurrences::offset_for(standard.mode, wall, offset),
        t,
    );
    let d = occurrences_at(
        daylight,
        occurrences::offset_for(daylight.mode, offset, offset),
        t,
    );
    let start = occurrences::larger(tail.start, occurrences::larger(s.last, d.last));
    let end = occurrences::smaller(occurrences::smaller(s.next, d.next), 3281606784000000000);
    if s.next < d.next {
        return Interval {
            daylight: true,
            wall: wall,
            savings: tail.savings,
            start: start,
            end: end,
        };
    }
    Interval {
        daylight: false,
        wall: offset,
        savings: 86400000,
        start: start,
        end: end,
    }
}
