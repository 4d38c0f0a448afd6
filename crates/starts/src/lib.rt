// The table of starts of a zone in a whole file: the walk to the asked zone, and its listed interval starts.
#![tactic(auto)]

ghost use Rattle.std.specs.Prelude.{◌≡◌, ◌≤◌, length};
ghost use Rattle.pool.specs.Pool.{parse_pool};
ghost use Rattle.pool.specs.Index.{room_of};
ghost use Rattle.locate.specs.View.{part, Lies, by_pool};
ghost use Rattle.starts.specs.Table.{FillsAt, FillsFrom};

use base::{Fault, Refusal};
use locate::{First, Located};
use zone_starts::ZoneStarts;

// A file whose field 0 has the data s[d..e]. starts gets the index of its strings.
fn fill_with(
    s: &[u8],
    d: usize,
    e: usize,
    id: &[u8],
    starts: &mut [u32],
    out: &mut [i64],
) -> Result<usize, Fault>
    requires { Lies s.now d e × (room_of (part d e s.now) ≤ length starts.old) }
    ensures { FillsAt (by_pool id.now s.now d e (parse_pool (part d e s.now))) out.old result out.new }
{
    match asked_zones::walk(s, d, e, id, starts) {
        Located::Refused(n, p) => Err((n, p)),
        Located::Cut(p) => Err((Refusal::CutShort, p)),
        Located::End(p) => Err((Refusal::NotFound, p)),
        Located::Found(v) => {
            let from = v.start;
            let to = v.past;
            match zone_starts::fill(&s[from..to], v.count as u64, out) {
                ZoneStarts::Refused(n) => Err((n, v.place)),
                ZoneStarts::Short => Err((Refusal::TooShort, 0)),
                ZoneStarts::Filled(n) => Ok(n),
            }
        }
    }
}

// The same with an index of its own, for a pool of few strings: a short index is cleared at once.
fn fill_short(s: &[u8], d: usize, e: usize, id: &[u8], out: &mut [i64]) -> Result<usize, Fault>
    requires { Lies s.now d e × (room_of (part d e s.now) ≤ 256) }
    ensures { FillsAt (by_pool id.now s.now d e (parse_pool (part d e s.now))) out.old result out.new }
{
    let mut starts = [0u32; 256];
    fill_with(s, d, e, id, &mut starts, out)
}

// The same for every pool.
fn fill_long(s: &[u8], d: usize, e: usize, id: &[u8], out: &mut [i64]) -> Result<usize, Fault>
    requires { Lies s.now d e }
    ensures { FillsAt (by_pool id.now s.now d e (parse_pool (part d e s.now))) out.old result out.new }
{
    let mut starts = [0u32; 8192];
    fill_with(s, d, e, id, &mut starts, out)
}

// The listed interval starts of the zone with the bytes id, put in a lent table in ticks since 1970, and how many they are. The bytes are all there is.
pub fn fill_starts(s: &[u8], id: &[u8], out: &mut [i64]) -> Result<usize, Fault>
    ensures { FillsFrom s.now id.now out.old result out.new }
{
    match first_fields::read_first(s) {
        First::Refused(n, p) => Err((n, p)),
        First::Cut(p) => Err((Refusal::CutShort, p)),
        First::End(p) => Err((Refusal::NotFound, p)),
        First::Pool(d, e) => {
            if pool::room(&s[d..e]) <= 256 {
                return fill_short(s, d, e, id, out);
            }
            fill_long(s, d, e, id, out)
        }
    }
}
