// Where a yearly rule falls in a year.
#![tactic(auto)]

ghost use Rattle.std.specs.Prelude.{◌≡◌, ◌≤◌, ◌<◌, min, max};
ghost use Rattle.rules.specs.Rules.{RuleOk};
ghost use Rattle.occurrences.specs.Rules.{month_day, moved, falls_on, occurrence, subtracted};

use rules::Rule;

const DAY: u64 = 864000000000;

// The day of the month that a rule names in a year.
fn month_day(r: Rule, k: u64) -> u64
    requires { (k < 20000) × RuleOk r }
    ensures { result ≡ month_day r k }
{
    let n = dates::month_length(k, r.month);
    if r.last {
        n + 1 - r.day
    } else {
        smaller(r.day, n)
    }
}

// The day moved to a weekday.
fn move_day(weekday: u64, after: bool, n: u64) -> u64
    requires { (weekday ≤ 7) × (7 ≤ n) × (n < 8000000) }
    ensures { result ≡ moved weekday after n }
{
    if weekday == 0 {
        return n;
    }
    let w = dates::weekday(n);
    if after {
        n + (weekday + 7 - w) % 7
    } else {
        n - (w + 7 - weekday) % 7
    }
}

// The day on which a rule falls in a year.
fn falls_on(r: Rule, k: u64) -> u64
    requires { (1 ≤ k) × (k < 19000) × RuleOk r }
    ensures { result ≡ falls_on r k }
{
    let n = dates::day_number(k, r.month, month_day(r, k));
    let m = move_day(r.weekday, r.after, n);
    if r.plus { m + 1 } else { m }
}

// The instant at which a rule falls in a year, with the offset to subtract.
pub fn occurrence_in(r: Rule, offset: u64, k: u64) -> u64
    requires { (1 ≤ k) × (k < 19000) × (offset ≤ 172800000) × RuleOk r }
    ensures { result ≡ occurrence r offset k }
{
    (falls_on(r, k) + 1) * DAY + r.time * 10000 - offset * 10000
}

// The offset to subtract from a rule's time, where `wall` is the wall offset of the other rule.
pub fn offset_for(mode: u64, wall: u64, standard: u64) -> u64
    ensures { result ≡ subtracted mode wall standard }
{
    if mode == 0 {
        return 86400000;
    }
    if mode == 1 { wall } else { standard }
}

pub fn larger(a: u64, b: u64) -> u64
    ensures { result ≡ max a b }
{
    if a < b { b } else { a }
}

pub fn smaller(a: u64, b: u64) -> u64
    ensures { result ≡ min a b }
{
    if a < b { a } else { b }
}
