// Asks stored tails at stored instants. A line is twelve numbers: standard offset and savings (milliseconds with
// 86,400,000 added), the fields of the standard rule as in the file (byte, month, day as it stands, time as an offset), those of the
// daylight rule, the tail's start and the instant (ticks since 1 January of year -399). Written for each: start, end, wall offset,
// savings, and D or S for daylight or standard time; or the number of the refusal of a number out of its range.
ghost use Rattle.std.specs.Prelude.{◌≡◌, true, ◌<◌};
ghost use Rattle.base.specs.Moment.{Finite};
ghost use Rattle.rules.specs.Fields.{FieldsOk};

use crate::{cases, hex};
use base::Refusal;
use recurrence::{Interval, Tail};
use std::io::Write;

// The fields of a rule, as in the file.
#[derive(Clone, Copy)]
struct Fields {
    byte: u64,
    month: u64,
    day: u64,
    time: u64,
}

#[derive(Clone, Copy)]
struct Question {
    offset: u64,
    savings: u64,
    standard: Fields,
    daylight: Fields,
    start: u64,
    instant: u64,
}

fn number(line: &[u8], k: usize) -> u64 {
    cases::natural(hex::text(line, k))
}

// The four fields of a rule, from the k-th word on.
fn rule_fields(line: &[u8], k: usize) -> Fields
    requires { k < 256 }
{
    Fields {
        byte: number(line, k),
        month: number(line, k + 1),
        day: number(line, k + 2),
        time: number(line, k + 3),
    }
}

fn read_question(line: &[u8]) -> Question {
    Question {
        offset: number(line, 0),
        savings: number(line, 1),
        standard: rule_fields(line, 2),
        daylight: rule_fields(line, 6),
        start: number(line, 10),
        instant: number(line, 11),
    }
}

fn rule_ok(f: Fields) -> bool
    ensures { result ≡ true → FieldsOk f.byte f.month f.day f.time }
{
    if !rules::rule_byte_ok(f.byte) {
        return false;
    }
    if !rules::month_ok(f.month) {
        return false;
    }
    if !rules::day_ok(f.month, f.day) {
        return false;
    }
    rules::time_ok(f.time)
}

fn is_finite(t: u64) -> bool
    ensures { result ≡ true → Finite t }
{
    if t < 126227808000000000 {
        return false;
    }
    t <= 3281606783999999999
}

// The tail of a question, asked at its instant.
fn answer(q: Question) -> Result<Interval, Refusal> {
    let s = q.standard;
    let d = q.daylight;
    if 172799999 < q.offset {
        return Err(Refusal::BadCode);
    }
    if 172799999 < q.savings {
        return Err(Refusal::BadCode);
    }
    if !rule_ok(s) {
        return Err(Refusal::BadRecurrence);
    }
    if !rule_ok(d) {
        return Err(Refusal::BadRecurrence);
    }
    if !rules::sum_ok(q.offset, q.savings) {
        return Err(Refusal::BadRecurrence);
    }
    if !is_finite(q.start) {
        return Err(Refusal::BadInterval);
    }
    if !is_finite(q.instant) {
        return Err(Refusal::OutOfRange);
    }
    let tail = Tail {
        start: q.start,
        offset: q.offset,
        savings: q.savings,
        standard: rules::rule_of(s.byte, s.month, s.day, s.time),
        daylight: rules::rule_of(d.byte, d.month, d.day, d.time),
    };
    Ok(recurrence::look_up(tail, q.instant))
}

fn show<W: Write>(to: &mut W, r: Result<Interval, Refusal>) {
    match r {
        Ok(x) => {
            cases::say_number(to, x.start);
            cases::say(to, b" ");
            cases::say_number(to, x.end);
            cases::say(to, b" ");
            cases::say_number(to, x.wall);
            cases::say(to, b" ");
            cases::say_number(to, x.savings);
            if x.daylight {
                cases::say(to, b" D\n");
            } else {
                cases::say(to, b" S\n");
            }
        }
        Err(k) => {
            cases::say_number(to, k.number() as u64);
            cases::say(to, b"\n");
        }
    }
}

pub fn run_line<W: Write>(to: &mut W, line: &[u8]) {
    show(to, answer(read_question(line)));
}
