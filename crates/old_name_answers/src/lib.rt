// The named question over an older dictionary, of a whole file that is checked first.
#![tactic(auto)]

ghost use Rattle.std.specs.Prelude.{◌≡◌};
ghost use Rattle.std.proofs.Math.Option.{none};
ghost use Rattle.base.specs.Moment.{Finite};
ghost use Rattle.aliases.specs.Dictionary.{target_of};
ghost use Rattle.alias_lookup.specs.Lookup.{lookup};
ghost use Rattle.old_dictionaries.specs.OldDictionary.{parse_old_dictionary};
ghost use Rattle.old_named_questions.specs.OldNamed.{zone_at, resolved, older_says, zone_first, ask_named_old};
ghost use Rattle.old_named_questions.specs.View.{entries_of, Sound, Listed, Points, asked_of};

use answers::{Found, Outcome};
use base::{Fault, Refusal};
use zones::Edition;

// Where the target of the key x lies in d, among n entries from a place on.
fn find_in(d: &[u8], from: usize, n: u64, x: &[u8]) -> Option<(usize, usize)>
    requires { Listed d.now from n }
    ensures { Points d.now (target_of (entries_of d.now) x.now) result }
{
    let mut at = from;
    let mut left = n;
    while 0 < left {
        match old_pairs::pair_at(d, at) {
            None => {
                return None;
            }
            Some((b, c, v, e)) => {
                if strings::same(&d[b..c], x) {
                    return Some((v, e));
                }
                at = e;
                left -= 1;
            }
        }
    }
    None
}

// Where the target of the key x lies in d.
fn find_target(d: &[u8], x: &[u8]) -> Option<(usize, usize)>
    requires { Sound d.now }
    ensures { Points d.now (target_of (entries_of d.now) x.now) result }
{
    match old_count_readers::read_count(d) {
        Err(_) => None,
        Ok((n, a)) => find_in(d, a, n, x),
    }
}

// The zone with the ID id, asked at the instant t.
fn zone_at(s: &[u8], id: &[u8], t: u64, edition: Edition) -> Option<Found>
    requires { Finite t }
    ensures { result ≡ asked_of (zone_at edition s.now t id.now) }
{
    match questions::ask_at(s, id, t, edition) {
        Outcome::Answered(x) => Some(x),
        Outcome::Refused(_, _) => None,
        Outcome::Cut(_) => None,
        Outcome::End(_) => None,
    }
}

// What the name, which is no zone's ID, leads to with some steps left: the zone with its target for an ID, or what that leads to with one step fewer.
fn follow(
    s: &[u8],
    d: &[u8],
    name: &[u8],
    t: u64,
    left: u64,
    edition: Edition,
) -> Result<Found, Fault>
    requires { Finite t × Sound d.now × (zone_at edition s.now t name.now ≡ none) }
    ensures { result ≡ resolved (lookup (zone_at edition s.now t) (entries_of d.now) left name.now) }
{
    match find_target(d, name) {
        None => Err((Refusal::NotFound, 0)),
        Some((b, e)) => {
            if left == 0 {
                return Err((Refusal::TooManySteps, 0));
            }
            match zone_at(s, &d[b..e], t, edition) {
                Some(x) => Ok(x),
                None => follow(s, d, &d[b..e], t, left - 1, edition),
            }
        }
    }
}

// The question on a file that the check found good, at an instant in range.
fn ask_checked(
    s: &[u8],
    older: &[u8],
    name: &[u8],
    t: u64,
    edition: Edition,
) -> Result<Found, Fault>
    requires { Finite t }
    ensures { result ≡ zone_first (zone_at edition s.now t name.now) (older_says (zone_at edition s.now t) name.now (parse_old_dictionary older.now)) }
{
    match zone_at(s, name, t, edition) {
        Some(x) => Ok(x),
        None => match old_entries::read_dictionary(older) {
            Err(k) => Err((k, 0)),
            Ok((_, _)) => follow(s, older, name, t, 8, edition),
        },
    }
}

// The named question over an older dictionary: the zone with the bytes name for its ID, or else the one that the older dictionary's alias name leads
// to, at a tick since 1970, under an edition.
pub fn ask_named_old(
    s: &[u8],
    older: &[u8],
    name: &[u8],
    ticks: i64,
    edition: Edition,
) -> Result<Found, Fault>
    ensures { result ≡ ask_named_old s.now older.now name.now ticks edition }
{
    let t = signed::instant(ticks);
    if t == 0 {
        return Err((Refusal::OutOfRange, 0));
    }
    checks::check(s)?;
    ask_checked(s, older, name, t, edition)
}
