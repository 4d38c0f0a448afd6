// What is kept of a whole zone that is read once, and the interval made of it that holds an instant, with the laws of both. The zone is read in the crates
// above.
#![tactic(auto)]

ghost use Rattle.std.specs.Prelude.{◌≡◌};
ghost use Rattle.base.specs.Moment.{Finite};
ghost use Rattle.recurrence.specs.Tails.{TailOk};
ghost use Rattle.zones.specs.Lookup.{in_tail};
ghost use Rattle.lookups.specs.View.{held_until, fixed_name};

use base::{END, Refusal};
use intervals::Scan;
use tails::NamedTail;
use zones::{Edition, Found};

// A whole zone, with what an instant needs of it, and whether its transitions are in the writer's form.
#[derive(Clone, Copy)]
pub enum ZoneRead {
    Fixed(u64, u64, u64, bool),
    Listed(u64, Scan, bool),
    Tailed(u64, Scan, NamedTail, bool),
    Refused(Refusal),
}

// A listed interval that lasts to the next start after the instant, or else to the end of the list.
pub fn held_until(c: Scan, end: u64) -> Found
    ensures { result ≡ held_until c end }
{
    let held = c.held;
    if c.end < END {
        return Found {
            wall: held.wall,
            savings: held.savings,
            name: held.name,
            start: held.start,
            end: c.end,
        };
    }
    Found {
        wall: held.wall,
        savings: held.savings,
        name: held.name,
        start: held.start,
        end: end,
    }
}

// The interval of a tail that holds the instant t.
pub fn in_tail(t: u64, n: NamedTail) -> Found
    requires { Finite t × TailOk n.tail }
    ensures { result ≡ in_tail t n }
{
    let tail = n.tail;
    let x = recurrence::look_up(tail, t);
    if x.daylight {
        return Found {
            wall: x.wall,
            savings: x.savings,
            name: n.daylight,
            start: x.start,
            end: x.end,
        };
    }
    Found {
        wall: x.wall,
        savings: x.savings,
        name: n.standard,
        start: x.start,
        end: x.end,
    }
}

// The name of a fixed zone, which has the ID id and by what follows its offset the name n.
pub fn fixed_name(edition: Edition, id: u64, n: u64) -> u64
    ensures { result ≡ fixed_name edition id n }
{
    match edition {
        Edition::One => id,
        Edition::Two => n,
    }
}
