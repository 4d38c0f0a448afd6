// From a stage inside a zone to the next mention.
#![tactic(auto)]

ghost use Rattle.std.specs.Prelude.{◌≡◌, ◌+◌, ◌≤◌, length, drop};
ghost use Rattle.places.specs.Placed.{Stands};
ghost use Rattle.places.specs.Short.{half_hours};
ghost use Rattle.mentions.specs.Walk.{behind_rule, behind_end, behind_start, behind_details, behind_offset, behind_interval_count, behind_id};
ghost use Rattle.mentions.specs.View.{of_skipped};
ghost use Rattle.zone_mentions.specs.Short.{HoursAt, ShortAt, StartAt};

use base::{END, FIRST, LAST, Refusal};
use mentions::Stage;
use transitions::HOUR;

// Behind the standard name of a tail: its rule.
pub fn behind_rule(s: &[u8], at: usize) -> Result<(Stage, usize), Refusal>
    requires { at ≤ length s.now }
    ensures { Stands s.now (behind_rule (drop at s.now)) (of_skipped result) }
{
    match places::byte_at(s, at) {
        Err(k) => Err(k),
        Ok((_, a)) => match places::count_at(s, a) {
            Err(k) => Err(k),
            Ok((_, b)) => match places::zigzag_at(s, b) {
                Err(k) => Err(k),
                Ok((_, d)) => match places::sum_at(s, d) {
                    Err(k) => Err(k),
                    Ok((_, e)) => Ok((Stage::Rest, e)),
                },
            },
        },
    }
}

// Behind the end transition: the tail byte, and the tail's standard offset.
fn behind_end(s: &[u8], at: usize) -> Result<(Stage, usize), Refusal>
    requires { at ≤ length s.now }
    ensures { Stands s.now (behind_end (drop at s.now)) (of_skipped result) }
{
    match places::byte_at(s, at) {
        Err(k) => Err(k),
        Ok((b, a)) => {
            if b != 1 {
                return Ok((Stage::Rest, s.len()));
            }
            match places::sum_at(s, a) {
                Err(k) => Err(k),
                Ok((_, e)) => Ok((Stage::Rule, e)),
            }
        }
    }
}

// Before a transition after prev, with `left` more intervals.
fn behind_start(s: &[u8], at: usize, prev: u64, left: u64) -> Result<(Stage, usize), Refusal>
    requires { at ≤ length s.now }
    ensures { Stands s.now (behind_start prev left (drop at s.now)) (of_skipped result) }
{
    let (m, e) = places::moment_at(s, at, prev)?;
    if left == 0 {
        return behind_end(s, e);
    }
    Ok((Stage::Interval(m, left - 1), e))
}

// Behind the name of an interval: its offsets, and the transition that follows.
pub fn behind_details(s: &[u8], at: usize, start: u64, left: u64) -> Result<(Stage, usize), Refusal>
    requires { at ≤ length s.now }
    ensures { Stands s.now (behind_details start left (drop at s.now)) (of_skipped result) }
{
    match places::sum_at(s, at) {
        Err(k) => Err(k),
        Ok((_, a)) => match places::sum_at(s, a) {
            Err(k) => Err(k),
            Ok((_, b)) => behind_start(s, b, start, left),
        },
    }
}

// Behind a fixed zone's flag: its offset.
fn behind_offset(s: &[u8], at: usize) -> Result<(Stage, usize), Refusal>
    requires { at ≤ length s.now }
    ensures { Stands s.now (behind_offset (drop at s.now)) (of_skipped result) }
{
    match places::sum_at(s, at) {
        Err(k) => Err(k),
        Ok((_, e)) => Ok((Stage::Rest, e)),
    }
}

// Behind a listed zone's flag: the interval count.
fn behind_interval_count(s: &[u8], at: usize) -> Result<(Stage, usize), Refusal>
    requires { at ≤ length s.now }
    ensures { Stands s.now (behind_interval_count (drop at s.now)) (of_skipped result) }
{
    let (n, e) = places::count_at(s, at)?;
    behind_start(s, e, END, n)
}

// Behind a zone's ID: its flag.
pub fn behind_id(s: &[u8], at: usize) -> Result<(Stage, usize), Refusal>
    requires { at ≤ length s.now }
    ensures { Stands s.now (behind_id (drop at s.now)) (of_skipped result) }
{
    let (b, e) = places::byte_at(s, at)?;
    if b == 1 {
        return behind_offset(s, e);
    }
    if b == 2 {
        return behind_interval_count(s, e);
    }
    Ok((Stage::Rest, s.len()))
}

// Whether a byte is an offset of half hours.
fn half_hours(b: u8) -> bool
    ensures { result ≡ half_hours b }
{
    if b == 0 {
        return false;
    }
    b < 96
}

// The start after prev at a place, in two bytes of hours; 0 where no such stands there.
fn hours_at(s: &[u8], at: usize, prev: u64) -> u64
    requires { at + 2 ≤ length s.now }
    ensures { HoursAt s.now at prev result }
{
    let b = s[at] as u64;
    if b < 128 {
        return 0;
    }
    let d = s[at + 1] as u64;
    if d == 0 {
        return 0;
    }
    if 127 < d {
        return 0;
    }
    if prev < FIRST {
        return 0;
    }
    if LAST < prev {
        return 0;
    }
    let m = prev + (b % 128 + 128 * d) * HOUR;
    if LAST < m {
        return 0;
    }
    m
}

// Behind the name of an interval that starts at prev: the start of the next, where the codes up to it take four bytes, as is usual; 0 where others
// stand there.
pub fn short_start(s: &[u8], at: usize, prev: u64) -> u64
    requires { at ≤ length s.now }
    ensures { ShortAt s.now at prev result }
{
    if s.len() - at < 4 {
        return 0;
    }
    if half_hours(s[at]) {
        if half_hours(s[at + 1]) {
            return hours_at(s, at + 2, prev);
        }
    }
    0
}

// The start of an interval and the place behind it, where its name stands.
#[derive(Clone, Copy)]
pub struct Start {
    pub start: u64,
    pub place: usize,
}

// Behind the name of an interval that starts at prev: the start of the next, code by code; the place 0 where there is none.
pub fn any_start(s: &[u8], at: usize, prev: u64) -> Start
    requires { at ≤ length s.now }
    ensures { StartAt s.now at prev result }
{
    match places::sum_at(s, at) {
        Err(_) => Start { start: 0, place: 0 },
        Ok((_, a)) => match places::sum_at(s, a) {
            Err(_) => Start { start: 0, place: 0 },
            Ok((_, b)) => match any_intervals::moment_at(s, b, prev) {
                Err(_) => Start { start: 0, place: 0 },
                Ok((m, e)) => Start { start: m, place: e },
            },
        },
    }
}

// The same. Codes of four bytes, the usual ones, are told by few tests.
pub fn next_start(s: &[u8], at: usize, prev: u64) -> Start
    requires { at ≤ length s.now }
    ensures { StartAt s.now at prev result }
{
    let m = short_start(s, at, prev);
    if 0 < m {
        return Start {
            start: m,
            place: at + 4,
        };
    }
    any_start(s, at, prev)
}
