// A yearly rule from its fields in the file, each judged as soon as it is read.
#![tactic(auto)]

ghost use Rattle.std.specs.Prelude.{◌≡◌, true, ◌≤◌, ◌<◌};
ghost use Rattle.rules.specs.Rules.{most_day};
ghost use Rattle.rules.specs.Fields.{byte_ok, month_ok, day_ok, time_ok, sum_ok, rule_of};

#[derive(Clone, Copy)]
pub struct Rule {
    // 0 UTC, 1 wall, 2 standard
    pub mode: u64,
    // 0 none, 1 Monday to 7 Sunday
    pub weekday: u64,
    // the weekday on or after the date, else on or before
    pub after: bool,
    // a day is added
    pub plus: bool,
    pub month: u64,
    // the day counts from the month's end, else from its start
    pub last: bool,
    // from 1
    pub day: u64,
    // milliseconds after midnight
    pub time: u64,
}

// Whether the byte of a rule is allowed.
pub fn rule_byte_ok(b: u64) -> bool
    ensures { result ≡ byte_ok b }
{
    if 127 < b {
        return false;
    }
    b / 32 % 4 < 3
}

// Whether the month of a rule is allowed.
pub fn month_ok(month: u64) -> bool
    ensures { result ≡ month_ok month }
{
    if month < 1 {
        return false;
    }
    month <= 12
}

// Whether the day of a rule, as the number that stands in the file, is allowed in its month.
pub fn day_ok(month: u64, z: u64) -> bool
    requires { month_ok month ≡ true }
    ensures { result ≡ day_ok month z }
{
    let day = z / 2 + z % 2;
    if day < 1 {
        return false;
    }
    day <= most_day(month, z % 2 == 1)
}

// The largest day of a month, counted from its start or from its end: by its length in 2024 or in 2023.
fn most_day(month: u64, last: bool) -> u64
    requires { month < 13 }
    ensures { result ≡ most_day month last }
{
    if last {
        return dates::month_length(2422, month);
    }
    dates::month_length(2423, month)
}

// Whether the time of day of a rule, as an offset, is allowed.
pub fn time_ok(sum: u64) -> bool
    ensures { result ≡ time_ok sum }
{
    if sum < 86400000 {
        return false;
    }
    sum < 172800000
}

// Whether standard offset and savings together stay inside 24 hours.
pub fn sum_ok(offset: u64, savings: u64) -> bool
    requires { (offset ≤ 172800000) × (savings ≤ 172800000) }
    ensures { result ≡ sum_ok offset savings }
{
    if offset + savings <= 86400000 {
        return false;
    }
    offset + savings < 259200000
}

// The rule of the fields that stand in the file.
pub fn rule_of(b: u64, month: u64, z: u64, sum: u64) -> Rule
    requires { time_ok sum ≡ true }
    ensures { result ≡ rule_of b month z sum }
{
    Rule {
        mode: b / 32 % 4,
        weekday: b / 4 % 8,
        after: b / 2 % 2 == 1,
        plus: b % 2 == 1,
        month: month,
        last: z % 2 == 1,
        day: z / 2 + z % 2,
        time: sum - 86400000,
    }
}
