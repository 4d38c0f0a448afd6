// A zone found once, for repeated questions: the walk to it gives its places in the file, and a question on these reads that zone alone.
#![tactic(auto)]

ghost use Rattle.std.specs.Prelude.{◌≡◌, ◌≤◌, length};
ghost use Rattle.base.specs.Moment.{Finite};
ghost use Rattle.pool.specs.Pool.{parse_pool};
ghost use Rattle.pool.specs.Index.{room_of};
ghost use Rattle.locate.specs.View.{part, Lies, by_pool};
ghost use Rattle.found_zones.specs.FoundZone.{place_in, zone_at, zone_answer, ask_zone, FindsZone};
ghost use Rattle.found_zones.specs.View.{FindsOut};

use answers::Found;
use base::{Fault, Refusal};
use locate::{First, Located};
use zones::Edition;

// Where the data of field 0 and those of the zone start and end in the file, and the place of the zone's ID byte.
#[derive(Clone, Copy)]
pub struct FoundZone {
    pub pool: usize,
    pub past: usize,
    pub start: usize,
    pub end: usize,
    pub place: usize,
}

// A file whose field 0 has the data s[d..e]. starts gets the index of its strings.
fn find_with(
    s: &[u8],
    d: usize,
    e: usize,
    id: &[u8],
    starts: &mut [u32],
) -> Result<FoundZone, Fault>
    requires { Lies s.now d e × (room_of (part d e s.now) ≤ length starts.old) }
    ensures { FindsOut s.now (by_pool id.now s.now d e (parse_pool (part d e s.now))) result }
{
    match asked_zones::walk(s, d, e, id, starts) {
        Located::Refused(n, p) => Err((n, p)),
        Located::Cut(p) => Err((Refusal::CutShort, p)),
        Located::End(p) => Err((Refusal::NotFound, p)),
        Located::Found(v) => {
            let from = v.start;
            let to = v.past;
            match zone_reads::check(&s[from..to], v.count as u64) {
                Err(n) => Err((n, v.place)),
                Ok(_) => Ok(FoundZone {
                    pool: d,
                    past: e,
                    start: from,
                    end: to,
                    place: v.place,
                }),
            }
        }
    }
}

// The same with an index of its own, for a pool of few strings: a short index is cleared at once.
fn find_short(s: &[u8], d: usize, e: usize, id: &[u8]) -> Result<FoundZone, Fault>
    requires { Lies s.now d e × (room_of (part d e s.now) ≤ 256) }
    ensures { FindsOut s.now (by_pool id.now s.now d e (parse_pool (part d e s.now))) result }
{
    let mut starts = [0u32; 256];
    find_with(s, d, e, id, &mut starts)
}

// The same for every pool.
fn find_long(s: &[u8], d: usize, e: usize, id: &[u8]) -> Result<FoundZone, Fault>
    requires { Lies s.now d e }
    ensures { FindsOut s.now (by_pool id.now s.now d e (parse_pool (part d e s.now))) result }
{
    let mut starts = [0u32; 8192];
    find_with(s, d, e, id, &mut starts)
}

// The zone with the bytes id in a whole file.
pub fn find_zone(file: &[u8], id: &[u8]) -> Result<FoundZone, Fault>
    ensures { FindsZone file.now id.now result }
{
    match first_fields::read_first(file) {
        First::Refused(n, p) => Err((n, p)),
        First::Cut(p) => Err((Refusal::CutShort, p)),
        First::End(p) => Err((Refusal::NotFound, p)),
        First::Pool(d, e) => {
            if pool::room(&file[d..e]) <= 256 {
                return find_short(file, d, e, id);
            }
            find_long(file, d, e, id)
        }
    }
}

// The place that a question on the zone tells with its fault.
pub fn place_in(v: FoundZone) -> usize
    ensures { result ≡ place_in v }
{
    if 4194304 < v.place {
        return 0;
    }
    v.place
}

// The interval that holds the instant t, of a zone whose data are checked.
fn answer_in(file: &[u8], v: FoundZone, t: u64, edition: Edition) -> Result<Found, Fault>
    requires { Finite t }
    ensures { result ≡ zone_answer file.now v edition t (zone_at file.now v) }
{
    let pool = location_lookup::lent(file, v.pool, v.past);
    let count = pool::room(pool);
    let zone = location_lookup::lent(file, v.start, v.end);
    match zone_lookups::find(zone, count as u64, t, edition) {
        Err(n) => Err((n, place_in(v))),
        Ok(x) => {
            let name = string_search::find_string(pool, x.name);
            let at = name.at;
            Ok(answers::answer_of(v.pool + at, name.len, x))
        }
    }
}

// The question on a found zone, at a tick since 1970 and under an edition, whatever its numbers and the bytes are.
pub fn ask_zone(file: &[u8], v: FoundZone, ticks: i64, edition: Edition) -> Result<Found, Fault>
    ensures { result ≡ ask_zone file.now v ticks edition }
{
    let t = signed::instant(ticks);
    if t == 0 {
        return Err((Refusal::OutOfRange, 0));
    }
    answer_in(file, v, t, edition)
}
