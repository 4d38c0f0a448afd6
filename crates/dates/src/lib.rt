// The proleptic Gregorian calendar on unsigned numbers. A year k is counted from year -399, so year 1 is 400; a month is 1 to 12;
// a day n is counted from 1 January of year -399. calendar/specs/Calendar.antt says why. The bounds leave room past year 9999.
#![tactic(auto)]

ghost use Rattle.std.specs.Prelude.{◌≡◌, ◌≤◌, ◌<◌};
ghost use Rattle.calendar.specs.Calendar.{leap_day, month_length, days_before, year_start, day_number, weekday_of, year_of};

const LENGTHS: [u64; 13] = [0, 31, 28, 31, 30, 31, 30, 31, 31, 30, 31, 30, 31];

// The leap days of a year: 0 or 1.
fn leap_day(k: u64) -> u64
    requires { k < 20000 }
    ensures { result ≡ leap_day k }
{
    let y = k + 1;
    if y % 4 == 0 {
        if y % 100 == 0 {
            if y % 400 == 0 { 1 } else { 0 }
        } else {
            1
        }
    } else {
        0
    }
}

// The length of a month of a year.
pub fn month_length(k: u64, m: u64) -> u64
    requires { (k < 20000) × (m < 13) }
    ensures { result ≡ month_length k m }
{
    let i = m as usize;
    let n = LENGTHS[i];
    if m == 2 { n + leap_day(k) } else { n }
}

// The days of a year before a month, by closed arithmetic: twelve months of 367 days in all, rounded down, are 31, 30, 31, 30, 31, 30 ..,
// and from March on two days fewer, or one in a leap year. No table, no branch on the month.
fn days_before(k: u64, m: u64) -> u64
    requires { (k < 20000) × (m < 13) }
    ensures { result ≡ days_before k m }
{
    let whole = m - (m + 11) / 12;
    let from_march = (m + 9) / 12;
    (367 * whole + 5) / 12 - from_march * (2 - leap_day(k))
}

// The day of 1 January.
fn year_start(k: u64) -> u64
    requires { k < 20000 }
    ensures { result ≡ year_start k }
{
    365 * k + k / 4 - k / 100 + k / 400
}

// The day of a date.
pub fn day_number(k: u64, m: u64, d: u64) -> u64
    requires { (k < 20000) × (m < 13) × (1 ≤ d) × (d < 32) }
    ensures { result ≡ day_number k m d }
{
    year_start(k) + days_before(k, m) + (d - 1)
}

// The weekday of a day: 1 Monday to 7 Sunday.
pub fn weekday(n: u64) -> u64
    ensures { result ≡ weekday_of n }
{
    n % 7 + 1
}

// The year of a day, by an estimate that is at most one too large.
pub fn year_of(n: u64) -> u64
    requires { n < 7000000 }
    ensures { result ≡ year_of n }
{
    let k = (400 * n + 699) / 146097;
    if year_start(k) <= n { k } else { k - 1 }
}
