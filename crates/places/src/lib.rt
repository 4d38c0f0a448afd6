// Small codes at a place of a field's data: a value and the place behind it, or a refusal. The usual ones are told by few tests; long starts of
// intervals, and offsets, are read without a call.
#![tactic(auto)]

ghost use Rattle.std.specs.Prelude.{◌≡◌, ◌+◌, ◌≤◌, ◌<◌, length, get_or, drop};
ghost use Rattle.places.specs.Usual.{usual_size, UsualAt};
ghost use Rattle.base.specs.Moment.{Finite};
ghost use Rattle.transitions.specs.Transition.{from_count, read_moment};
ghost use Rattle.transitions.specs.Later.{later_in};
ghost use Rattle.places.specs.Long.{start_size};
ghost use Rattle.places.specs.Short.{half_hours, short_details};
ghost use Rattle.base.specs.Parsed.{parse, parse_byte};
ghost use Rattle.counts.specs.Count.{read_count};
ghost use Rattle.offsets.specs.Offset.{read_sum};
ghost use Rattle.places.specs.Placed.{Stands, of_read};
ghost use Rattle.places.specs.Name.{read_zigzag, parse_name};

use base::{Coded, LAST, Refusal};
use transitions::{HOUR, MINUTE, YEAR_1800};

pub fn byte_at(s: &[u8], at: usize) -> Coded<u64>
    requires { at ≤ length s.now }
    ensures { Stands s.now (parse_byte (drop at s.now)) (of_read result) }
{
    if s.len() <= at {
        return Err(Refusal::BadData);
    }
    Ok((s[at] as u64, at + 1))
}

// A code at a place, as a value and the place behind it.
fn any_count_at(s: &[u8], at: usize) -> Coded<u64>
    requires { at ≤ length s.now }
    ensures { Stands s.now (parse read_count (drop at s.now)) (of_read result) }
{
    let (v, n) = count_readers::read_count(&s[at..])?;
    Ok((v, at + n))
}

// The same. A count of one byte, the usual one, takes no call.
pub fn count_at(s: &[u8], at: usize) -> Coded<u64>
    requires { at ≤ length s.now }
    ensures { Stands s.now (parse read_count (drop at s.now)) (of_read result) }
{
    if s.len() <= at {
        return Err(Refusal::BadData);
    }
    let b = s[at] as u64;
    if b < 128 {
        return Ok((b, at + 1));
    }
    any_count_at(s, at)
}

pub fn zigzag_at(s: &[u8], at: usize) -> Coded<u64>
    requires { at ≤ length s.now }
    ensures { Stands s.now (parse read_zigzag (drop at s.now)) (of_read result) }
{
    let (v, n) = count_readers::read_groups(&s[at..], 15)?;
    Ok((v, at + n))
}

fn any_sum_at(s: &[u8], at: usize) -> Coded<u64>
    requires { at ≤ length s.now }
    ensures { Stands s.now (parse read_sum (drop at s.now)) (of_read result) }
{
    let (v, n) = offset_readers::read_sum(&s[at..])?;
    Ok((v, at + n))
}

// An offset of half hours, the usual one, takes no call.
pub fn sum_at(s: &[u8], at: usize) -> Coded<u64>
    requires { at ≤ length s.now }
    ensures { Stands s.now (parse read_sum (drop at s.now)) (of_read result) }
{
    if s.len() <= at {
        return Err(Refusal::BadData);
    }
    let b = s[at] as u64;
    if b == 0 {
        return Err(Refusal::BadCode);
    }
    if b < 96 {
        return Ok((b * 1800000, at + 1));
    }
    any_sum_at(s, at)
}

pub fn moment_at(s: &[u8], at: usize, prev: u64) -> Coded<u64>
    requires { at ≤ length s.now }
    ensures { Stands s.now (parse (read_moment prev) (drop at s.now)) (of_read result) }
{
    let (v, n) = transition_readers::read_moment(prev, &s[at..])?;
    Ok((v, at + n))
}

// A pool number below the pool's count.
pub fn name_at(s: &[u8], at: usize, pool: u64) -> Coded<u64>
    requires { at ≤ length s.now }
    ensures { Stands s.now (parse_name pool (drop at s.now)) (of_read result) }
{
    let (n, e) = count_at(s, at)?;
    if n < pool {
        return Ok((n, e));
    }
    Err(Refusal::BadText)
}

// Whether a byte is an offset of half hours.
fn half_hours(b: u8) -> bool
    ensures { result ≡ half_hours b }
{
    if b == 0 {
        return false;
    }
    b < 96
}

// Whether a name, a wall offset and savings stand at a place, in a byte each.
pub fn short_details(s: &[u8], at: usize) -> bool
    requires { at + 3 ≤ length s.now }
    ensures { result ≡ short_details s.now at }
{
    if 127 < s[at] {
        return false;
    }
    if half_hours(s[at + 1]) {
        return half_hours(s[at + 2]);
    }
    false
}

// How many bytes such a start takes, by its first bytes; 2 where none stands there.
pub fn start_size(s: &[u8], at: usize) -> usize
    requires { at + 4 ≤ length s.now }
    ensures { result ≡ start_size s.now at }
{
    if s[at] == 2 {
        return 9;
    }
    if s[at] < 128 {
        return 2;
    }
    if s[at + 1] < 128 {
        return 2;
    }
    if s[at + 2] < 128 {
        return 3;
    }
    if s[at + 3] < 128 {
        return 4;
    }
    2
}

// The instant v hours after prev, 0 where it is none.
fn hours_after(prev: u64, v: u64) -> u64
    requires { Finite prev × (128 ≤ v) × (v < 2097152) }
    ensures { result ≡ later_in prev 3 (from_count prev v 3) }
{
    let t = prev + v * HOUR;
    if LAST < t {
        return 0;
    }
    t
}

// The instant v minutes after 1800, 0 where it isn't after prev.
fn minutes_after(prev: u64, v: u64) -> u64
    requires { Finite prev × (2097152 ≤ v) × (v < 268435456) }
    ensures { result ≡ later_in prev 4 (from_count prev v 4) }
{
    let t = YEAR_1800 + v * MINUTE;
    if prev < t {
        return t;
    }
    0
}

fn three_bytes(s: &[u8], at: usize, prev: u64) -> u64
    requires { (at + 3 ≤ length s.now) × Finite prev × (3 ≡ start_size s.now at) }
    ensures { result ≡ later_in prev 3 (read_moment prev (drop at s.now)) }
{
    let e = s[at + 2] as u64;
    if e == 0 {
        return 0;
    }
    hours_after(
        prev,
        s[at] as u64 % 128 + 128 * (s[at + 1] as u64 % 128 + 128 * e),
    )
}

fn four_bytes(s: &[u8], at: usize, prev: u64) -> u64
    requires { (at + 4 ≤ length s.now) × Finite prev × (4 ≡ start_size s.now at) }
    ensures { result ≡ later_in prev 4 (read_moment prev (drop at s.now)) }
{
    let e = s[at + 3] as u64;
    if e == 0 {
        return 0;
    }
    minutes_after(
        prev,
        s[at] as u64 % 128
            + 128 * (s[at + 1] as u64 % 128 + 128 * (s[at + 2] as u64 % 128 + 128 * e)),
    )
}

// The start of n bytes at a place, where it is after prev; else 0.
pub fn long_start(s: &[u8], at: usize, n: usize, prev: u64) -> u64
    requires { (at + n ≤ length s.now) × Finite prev × (n ≡ start_size s.now at) × (n ≡ 2 → ⊥) }
    ensures { result ≡ later_in prev n (read_moment prev (drop at s.now)) }
{
    if n == 3 {
        return three_bytes(s, at, prev);
    }
    if n == 4 {
        return four_bytes(s, at, prev);
    }
    transition_readers::ticks_after(prev, &s[at..])
}

// 100 and 13 bits of minutes.
fn minutes_at(s: &[u8], at: usize) -> u64
    requires { (at + 2 ≤ length s.now) × (128 ≤ get_or s.now at 0) × (get_or s.now at 0 < 160) }
    ensures { UsualAt s.now at result }
{
    let v = s[at] as u64 % 32 * 256 + s[at + 1] as u64;
    if 2879 < v {
        return 0;
    }
    if v % 30 == 0 {
        return 0;
    }
    v * 60000
}

// 101 and 21 bits of seconds.
fn seconds_at(s: &[u8], at: usize) -> u64
    requires { (at + 3 ≤ length s.now) × (160 ≤ get_or s.now at 0) × (get_or s.now at 0 < 192) }
    ensures { UsualAt s.now at result }
{
    let v = (s[at] as u64 % 32 * 256 + s[at + 1] as u64) * 256 + s[at + 2] as u64;
    if 172799 < v {
        return 0;
    }
    if v % 60 == 0 {
        return 0;
    }
    v * 1000
}

// 110 and 29 bits of milliseconds.
fn milliseconds_at(s: &[u8], at: usize) -> u64
    requires { (at + 4 ≤ length s.now) × (192 ≤ get_or s.now at 0) × (get_or s.now at 0 < 224) }
    ensures { UsualAt s.now at result }
{
    let v = ((s[at] as u64 % 32 * 256 + s[at + 1] as u64) * 256 + s[at + 2] as u64) * 256
        + s[at + 3] as u64;
    if 172799999 < v {
        return 0;
    }
    if v % 1000 == 0 {
        return 0;
    }
    v
}

// The sum of the offset at a place; 0, which is no offset's sum, where none stands there or it ends early.
pub fn usual_sum(s: &[u8], at: usize) -> u64
    requires { at + 3 ≤ length s.now }
    ensures { UsualAt s.now at result }
{
    if s[at] < 96 {
        return s[at] as u64 * 1800000;
    }
    if s[at] < 128 {
        return 0;
    }
    if s[at] < 160 {
        return minutes_at(s, at);
    }
    if s[at] < 192 {
        return seconds_at(s, at);
    }
    if 223 < s[at] {
        return 0;
    }
    if s.len() - at < 4 {
        return 0;
    }
    milliseconds_at(s, at)
}

// How many bytes it takes, by its first one.
pub fn usual_size(b: u8) -> usize
    ensures { result ≡ usual_size b }
{
    if b < 128 {
        return 1;
    }
    if b < 160 {
        return 2;
    }
    if b < 192 {
        return 3;
    }
    4
}
