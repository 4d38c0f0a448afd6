// Wall time to instants, of a zone in a whole file: the walk to the asked zone, the instants there, and their ticks.
#![tactic(auto)]

ghost use Rattle.std.specs.Prelude.{◌≡◌, ◌≤◌, length};
ghost use Rattle.pool.specs.Pool.{parse_pool};
ghost use Rattle.pool.specs.Index.{room_of};
ghost use Rattle.frames.specs.Machine.{walk};
ghost use Rattle.answers.specs.Answers.{no_pool};
ghost use Rattle.locate.specs.Asked.{holder};
ghost use Rattle.locate.specs.View.{part, Lies, by_pool};
ghost use Rattle.wall_times.specs.WallTime.{MapsTo};
ghost use Rattle.wall_times.specs.View.{local_of, mapping_of, mapping_at};

use base::{Fault, Refusal};
use local_times::Tally;
use locate::{First, Located};

// A local time with the epoch and the 86,400,000 ms of an offset added, or 0 where no instant in range reads as it. The bounds are tested
// first, so that no sum leaves 64 bits.
pub fn local_number(local: i64) -> u64
    ensures { result ≡ local_of local }
{
    if local < -621356832000000000 {
        return 0;
    }
    if local > 2534023871999999999 {
        return 0;
    }
    (local + 747584640000000000) as u64
}

// How many instants, the earliest and the latest in ticks since 1970.
pub fn in_ticks(a: Tally) -> Result<(u64, i64, i64), Fault>
    ensures { result ≡ mapping_of a }
{
    if a.count == 0 {
        return Err((Refusal::NoInstant, 0));
    }
    let first = signed::ticks(a.earliest);
    let last = signed::ticks(a.latest);
    Ok((a.count, first, last))
}

// A file whose field 0 has the data s[d..e]. starts gets the index of its strings.
fn map_with(
    s: &[u8],
    d: usize,
    e: usize,
    id: &[u8],
    l: u64,
    starts: &mut [u32],
) -> Result<(u64, i64, i64), Fault>
    requires { Lies s.now d e × (room_of (part d e s.now) ≤ length starts.old) }
    ensures { result ≡ mapping_at l (by_pool id.now s.now d e (parse_pool (part d e s.now))) }
{
    match asked_zones::walk(s, d, e, id, starts) {
        Located::Refused(n, p) => Err((n, p)),
        Located::Cut(p) => Err((Refusal::CutShort, p)),
        Located::End(p) => Err((Refusal::NotFound, p)),
        Located::Found(v) => {
            let from = v.start;
            let to = v.past;
            match local_lookups::find(&s[from..to], v.count as u64, l) {
                Err(n) => Err((n, v.place)),
                Ok(a) => in_ticks(a),
            }
        }
    }
}

// The same with an index of its own, for a pool of few strings: a short index is cleared at once.
fn map_short(s: &[u8], d: usize, e: usize, id: &[u8], l: u64) -> Result<(u64, i64, i64), Fault>
    requires { Lies s.now d e × (room_of (part d e s.now) ≤ 256) }
    ensures { result ≡ mapping_at l (by_pool id.now s.now d e (parse_pool (part d e s.now))) }
{
    let mut starts = [0u32; 256];
    map_with(s, d, e, id, l, &mut starts)
}

// The same for every pool.
fn map_long(s: &[u8], d: usize, e: usize, id: &[u8], l: u64) -> Result<(u64, i64, i64), Fault>
    requires { Lies s.now d e }
    ensures { result ≡ mapping_at l (by_pool id.now s.now d e (parse_pool (part d e s.now))) }
{
    let mut starts = [0u32; 8192];
    map_with(s, d, e, id, l, &mut starts)
}

// The same of all the bytes.
fn map_number(s: &[u8], id: &[u8], l: u64) -> Result<(u64, i64, i64), Fault>
    ensures { result ≡ mapping_at l (walk (holder id.now) no_pool s.now) }
{
    match first_fields::read_first(s) {
        First::Refused(n, p) => Err((n, p)),
        First::Cut(p) => Err((Refusal::CutShort, p)),
        First::End(p) => Err((Refusal::NotFound, p)),
        First::Pool(d, e) => {
            if pool::room(&s[d..e]) <= 256 {
                return map_short(s, d, e, id, l);
            }
            map_long(s, d, e, id, l)
        }
    }
}

// The instants in range that read as a local time, given in ticks since 1970-01-01T00:00 local, in the zone with the bytes id. The bytes
// are all there is.
pub fn map_local(s: &[u8], id: &[u8], local: i64) -> Result<(u64, i64, i64), Fault>
    ensures { MapsTo s.now id.now local result }
{
    let l = local_number(local);
    map_number(s, id, l)
}
