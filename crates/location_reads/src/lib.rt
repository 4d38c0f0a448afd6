// The locations of a field: one at a place, their check, and one by number. One walk from front to back serves both.
#![tactic(auto)]

ghost use Rattle.std.specs.Prelude.{◌≡◌, ◌≤◌, length, drop};
ghost use Rattle.locations.specs.Content.{all_locations, parse_locations, parse_seconds, parse_number, parse_country, parse_countries, parse_texts, parse_location};
ghost use Rattle.locations.specs.Find.{kept_by, sought_of, verdict_of, how_many, of_country, spots_of, of_spot};
ghost use Rattle.places.specs.Placed.{Stands, of_read};

use base::{Coded, Refusal};
use locations::{Country, LocationField, Spot};

// Seconds of at most `most` either way.
pub fn seconds_at(s: &[u8], at: usize, most: u64) -> Coded<u64>
    requires { (at ≤ length s.now) × (most ≤ 648000) }
    ensures { Stands s.now (parse_seconds most (drop at s.now)) (of_read result) }
{
    let (v, e) = places::zigzag_at(s, at)?;
    if 2 * most < v {
        return Err(Refusal::BadLocation);
    }
    Ok((v, e))
}

// How many countries a location of a field has.
pub fn number_at(s: &[u8], at: usize, field: LocationField) -> Coded<u64>
    requires { at ≤ length s.now }
    ensures { Stands s.now (parse_number field (drop at s.now)) (of_read result) }
{
    match field {
        LocationField::Zone => Ok((1, at)),
        LocationField::Zone1970 => match places::zigzag_at(s, at) {
            Err(k) => Err(k),
            Ok((v, e)) => {
                if v % 2 != 0 {
                    return Err(Refusal::BadLocation);
                }
                Ok((v / 2, e))
            }
        },
    }
}

fn country_at(s: &[u8], at: usize, pool: u64) -> Coded<Country>
    requires { at ≤ length s.now }
    ensures { Stands s.now (parse_country pool tt (drop at s.now)) (of_country result) }
{
    match places::name_at(s, at, pool) {
        Err(k) => Err(k),
        Ok((n, a)) => match places::name_at(s, a, pool) {
            Err(k) => Err(k),
            Ok((c, e)) => Ok((Country { name: n, code: c }, e)),
        },
    }
}

// n countries from the place at on: how many they are, and the place behind them.
pub fn skip_countries(s: &[u8], at: usize, pool: u64, n: u64) -> Coded<u64>
    requires { at ≤ length s.now }
    ensures { Stands s.now (how_many (parse_countries pool n (drop at s.now))) (of_read result) }
{
    let mut left = n;
    let mut place = at;
    while 0 < left {
        let c = country_at(s, place, pool);
        match c {
            Err(k) => {
                return Err(k);
            }
            Ok((_, e)) => {
                left -= 1;
                place = e;
            }
        }
    }
    Ok((n, place))
}

// A location behind its number of countries.
fn read_texts(s: &[u8], at: usize, pool: u64, latitude: u64, longitude: u64, n: u64) -> Coded<Spot>
    requires { at ≤ length s.now }
    ensures { Stands s.now (spots_of s.now (parse_texts pool latitude longitude n (drop at s.now))) (of_spot result) }
{
    match skip_countries(s, at, pool, n) {
        Err(k) => Err(k),
        Ok((m, a)) => match places::name_at(s, a, pool) {
            Err(k) => Err(k),
            Ok((z, b)) => match places::name_at(s, b, pool) {
                Err(k) => Err(k),
                Ok((c, e)) => Ok((
                    Spot {
                        latitude: latitude,
                        longitude: longitude,
                        at: at,
                        left: m,
                        zone: z,
                        comment: c,
                    },
                    e,
                )),
            },
        },
    }
}

pub fn read_location(s: &[u8], at: usize, field: LocationField, pool: u64) -> Coded<Spot>
    requires { at ≤ length s.now }
    ensures { Stands s.now (spots_of s.now (parse_location field pool tt (drop at s.now))) (of_spot result) }
{
    match seconds_at(s, at, 324000) {
        Err(k) => Err(k),
        Ok((latitude, a)) => match seconds_at(s, a, 648000) {
            Err(k) => Err(k),
            Ok((longitude, b)) => match number_at(s, b, field) {
                Err(k) => Err(k),
                Ok((n, e)) => read_texts(s, e, pool, latitude, longitude, n),
            },
        },
    }
}

// What is kept of the asked location, by number, behind the location with the number i.
fn kept(
    found: Result<Option<Spot>, Refusal>,
    i: u64,
    number: u64,
    x: Spot,
) -> Result<Option<Spot>, Refusal>
    ensures { result ≡ kept_by number i x found }
{
    if i == number {
        return Ok(Some(x));
    }
    found
}

// n locations from the place at on, and nothing behind them.
fn read_locations(
    s: &[u8],
    at: usize,
    field: LocationField,
    pool: u64,
    n: u64,
    number: u64,
) -> Result<Option<Spot>, Refusal>
    requires { at ≤ length s.now }
    ensures { result ≡ sought_of s.now number (all_locations field pool n (drop at s.now)) }
{
    let mut i: u64 = 0;
    let mut place = at;
    let mut found = Ok(None);
    while i < n {
        let item = read_location(s, place, field, pool);
        match item {
            Err(k) => {
                return Err(k);
            }
            Ok((x, e)) => {
                found = kept(found, i, number, x);
                i += 1;
                place = e;
            }
        }
    }
    if place < s.len() {
        return Err(Refusal::BadData);
    }
    found
}

// The location of a field by number, from 0, all of the field's data checked; pool is the pool's count.
pub fn find(s: &[u8], field: LocationField, pool: u64, number: u64) -> Result<Option<Spot>, Refusal>
    ensures { result ≡ sought_of s.now number (parse_locations field pool s.now) }
{
    let (n, a) = places::count_at(s, 0)?;
    read_locations(s, a, field, pool, n, number)
}

// The check of a field.
pub fn check(s: &[u8], field: LocationField, pool: u64) -> Result<(), Refusal>
    ensures { result ≡ verdict_of (parse_locations field pool s.now) }
{
    match find(s, field, pool, 0) {
        Err(k) => Err(k),
        Ok(Some(_)) => Ok(()),
        Ok(None) => Ok(()),
    }
}
