// The tail of a zone: two yearly rules and their names.
#![tactic(auto)]

ghost use Rattle.std.specs.Prelude.{◌≡◌, true, ◌≤◌, length, drop};
ghost use Rattle.rules.specs.Fields.{month_ok};
ghost use Rattle.places.specs.Placed.{Stands};
ghost use Rattle.tails.specs.Tail.{parse_time, parse_day, parse_month, parse_rule, parse_standard, parse_savings, parse_daylight, parse_tail};
ghost use Rattle.tails.specs.View.{of_rule, of_standard, of_tail};

use base::{Coded, Refusal};
use recurrence::Tail;
use rules::Rule;

// A tail with the pool numbers of its two names.
#[derive(Clone, Copy)]
pub struct NamedTail {
    pub tail: Tail,
    pub standard: u64,
    pub daylight: u64,
}

// The first half of a tail: its start, and the standard offset, name and rule.
#[derive(Clone, Copy)]
pub struct Standard {
    pub start: u64,
    pub offset: u64,
    pub name: u64,
    pub rule: Rule,
}

fn read_time(s: &[u8], at: usize, b: u64, m: u64, z: u64) -> Coded<Rule>
    requires { at ≤ length s.now }
    ensures { Stands s.now (parse_time b m z (drop at s.now)) (of_rule result) }
{
    let (time, e) = places::sum_at(s, at)?;
    if rules::time_ok(time) {
        return Ok((rules::rule_of(b, m, z, time), e));
    }
    Err(Refusal::BadRecurrence)
}

fn read_day(s: &[u8], at: usize, b: u64, m: u64) -> Coded<Rule>
    requires { (at ≤ length s.now) × (month_ok m ≡ true) }
    ensures { Stands s.now (parse_day b m (drop at s.now)) (of_rule result) }
{
    let (z, e) = places::zigzag_at(s, at)?;
    if rules::day_ok(m, z) {
        return read_time(s, e, b, m, z);
    }
    Err(Refusal::BadRecurrence)
}

fn read_month(s: &[u8], at: usize, b: u64) -> Coded<Rule>
    requires { at ≤ length s.now }
    ensures { Stands s.now (parse_month b (drop at s.now)) (of_rule result) }
{
    let (m, e) = places::count_at(s, at)?;
    if rules::month_ok(m) {
        return read_day(s, e, b, m);
    }
    Err(Refusal::BadRecurrence)
}

fn read_rule(s: &[u8], at: usize) -> Coded<Rule>
    requires { at ≤ length s.now }
    ensures { Stands s.now (parse_rule (drop at s.now)) (of_rule result) }
{
    let (b, e) = places::byte_at(s, at)?;
    if rules::rule_byte_ok(b) {
        return read_month(s, e, b);
    }
    Err(Refusal::BadRecurrence)
}

fn read_standard(s: &[u8], at: usize, pool: u64, start: u64) -> Coded<Standard>
    requires { at ≤ length s.now }
    ensures { Stands s.now (parse_standard pool start (drop at s.now)) (of_standard result) }
{
    match places::sum_at(s, at) {
        Err(k) => Err(k),
        Ok((offset, a)) => match places::name_at(s, a, pool) {
            Err(k) => Err(k),
            Ok((n, b)) => match read_rule(s, b) {
                Err(k) => Err(k),
                Ok((rule, e)) => Ok((
                    Standard {
                        start: start,
                        offset: offset,
                        name: n,
                        rule: rule,
                    },
                    e,
                )),
            },
        },
    }
}

fn read_savings(s: &[u8], at: usize, x: Standard, n: u64, rule: Rule) -> Coded<NamedTail>
    requires { (at ≤ length s.now) × (x.offset ≤ 172800000) }
    ensures { Stands s.now (parse_savings x n rule (drop at s.now)) (of_tail result) }
{
    let (savings, e) = places::sum_at(s, at)?;
    let offset = x.offset;
    if rules::sum_ok(offset, savings) {
        let first = x.rule;
        return Ok((
            NamedTail {
                tail: Tail {
                    start: x.start,
                    offset: offset,
                    savings: savings,
                    standard: first,
                    daylight: rule,
                },
                standard: x.name,
                daylight: n,
            },
            e,
        ));
    }
    Err(Refusal::BadRecurrence)
}

fn read_daylight(s: &[u8], at: usize, pool: u64, x: Standard) -> Coded<NamedTail>
    requires { (at ≤ length s.now) × (x.offset ≤ 172800000) }
    ensures { Stands s.now (parse_daylight pool x (drop at s.now)) (of_tail result) }
{
    match places::name_at(s, at, pool) {
        Err(k) => Err(k),
        Ok((n, a)) => match read_rule(s, a) {
            Err(k) => Err(k),
            Ok((rule, e)) => read_savings(s, e, x, n, rule),
        },
    }
}

pub fn read_tail(s: &[u8], at: usize, pool: u64, start: u64) -> Coded<NamedTail>
    requires { at ≤ length s.now }
    ensures { Stands s.now (parse_tail pool start (drop at s.now)) (of_tail result) }
{
    let (x, e) = read_standard(s, at, pool, start)?;
    read_daylight(s, e, pool, x)
}
