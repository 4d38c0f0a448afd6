// From one mention of a field's data to the next: inside the alias dictionary and the locations, and in any field.
#![tactic(auto)]

ghost use Rattle.std.specs.Prelude.{◌≤◌, length, drop, ◌≡◌};
ghost use Rattle.places.specs.Placed.{Stands, of_read};
ghost use Rattle.mentions.specs.Walk.{numbered_names, location_names, before_names, before_pairs, before_locations, ahead_of, first_stage};
ghost use Rattle.mentions.specs.View.{of_skipped, NextMention};
ghost use Rattle.mention_steps.specs.View.{NamedAt};

use base::{Coded, Refusal};
use mentions::Stage;

// The names behind the first of a location that has a number of countries, and the place of the first.
fn numbered_names(s: &[u8], at: usize) -> Coded<u64>
    requires { at ≤ length s.now }
    ensures { Stands s.now (numbered_names (drop at s.now)) (of_read result) }
{
    let (v, e) = places::zigzag_at(s, at)?;
    Ok((2 * (v / 2) + 1, e))
}

// How many names stand behind the first of a location, and the place of the first.
pub fn location_names(s: &[u8], at: usize, numbered: bool) -> Coded<u64>
    requires { at ≤ length s.now }
    ensures { Stands s.now (location_names numbered (drop at s.now)) (of_read result) }
{
    match places::zigzag_at(s, at) {
        Err(k) => Err(k),
        Ok((_, a)) => match places::zigzag_at(s, a) {
            Err(k) => Err(k),
            Ok((_, b)) => {
                if numbered {
                    return numbered_names(s, b);
                }
                Ok((3, b))
            }
        },
    }
}

// Before n names in a row and so many locations.
pub fn before_names(
    s: &[u8],
    at: usize,
    n: u64,
    locations: u64,
    numbered: bool,
) -> Result<(Stage, usize), Refusal>
    requires { at ≤ length s.now }
    ensures { Stands s.now (before_names n locations numbered (drop at s.now)) (of_skipped result) }
{
    if 0 < n {
        return Ok((Stage::Names(n - 1, locations, numbered), at));
    }
    if locations == 0 {
        return Ok((Stage::Rest, s.len()));
    }
    let (m, e) = location_names(s, at, numbered)?;
    Ok((Stage::Names(m, locations - 1, numbered), e))
}

// At the front of field 3: its count.
pub fn before_pairs(s: &[u8], at: usize) -> Result<(Stage, usize), Refusal>
    requires { at ≤ length s.now }
    ensures { Stands s.now (before_pairs (drop at s.now)) (of_skipped result) }
{
    let (n, e) = places::count_at(s, at)?;
    before_names(s, e, 2 * n, 0, false)
}

// At the front of field 6 or 7: its count.
pub fn before_locations(s: &[u8], at: usize, numbered: bool) -> Result<(Stage, usize), Refusal>
    requires { at ≤ length s.now }
    ensures { Stands s.now (before_locations numbered (drop at s.now)) (of_skipped result) }
{
    let (n, e) = places::count_at(s, at)?;
    before_names(s, e, 0, n, numbered)
}

// From a stage at a place to the next mention: the stage behind it and the mention's place, or the end of the data where there is none.
fn skip(s: &[u8], at: usize, stage: Stage) -> Result<(Stage, usize), Refusal>
    requires { at ≤ length s.now }
    ensures { Stands s.now (ahead_of stage (drop at s.now)) (of_skipped result) }
{
    match stage {
        Stage::Zone => Ok((Stage::Flag, at)),
        Stage::Flag => zone_mentions::behind_id(s, at),
        Stage::Interval(start, left) => zone_mentions::behind_details(s, at, start, left),
        Stage::Rule => zone_mentions::behind_rule(s, at),
        Stage::Aliases => before_pairs(s, at),
        Stage::Locations(numbered) => before_locations(s, at, numbered),
        Stage::Names(n, locations, numbered) => before_names(s, at, n, locations, numbered),
        Stage::Rest => Ok((Stage::Rest, s.len())),
    }
}

// The mention at the place p, with the stage behind it.
fn named(s: &[u8], p: usize, behind: Stage) -> Option<(Stage, u64, usize, usize)>
    requires { p ≤ length s.now }
    ensures { NamedAt s.now p behind result }
{
    match places::count_at(s, p) {
        Err(_) => None,
        Ok((v, e)) => Some((behind, v, p, e)),
    }
}

// The next mention from a stage at a place on: the stage behind it, its number, its place and the place behind it.
pub fn next(s: &[u8], at: usize, stage: Stage) -> Option<(Stage, u64, usize, usize)>
    requires { at ≤ length s.now }
    ensures { NextMention s.now at stage result }
{
    match skip(s, at, stage) {
        Err(_) => None,
        Ok((behind, p)) => named(s, p, behind),
    }
}

// The stage at the front of the data of a field with the ID i.
pub fn first(i: u8) -> Stage
    ensures { result ≡ first_stage i }
{
    if i == 1 {
        return Stage::Zone;
    }
    if i == 3 {
        return Stage::Aliases;
    }
    if i == 6 {
        return Stage::Locations(false);
    }
    if i == 7 {
        return Stage::Locations(true);
    }
    Stage::Rest
}
