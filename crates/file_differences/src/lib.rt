// Where two whole files differ in one zone, over a window of instants: the walk to the zone in each of them, and a cursor at the window's first
// instant.
#![tactic(auto)]

ghost use Rattle.std.specs.Prelude.{◌≤◌, length};
ghost use Rattle.base.specs.Moment.{Finite};
ghost use Rattle.pool.specs.Pool.{parse_pool};
ghost use Rattle.pool.specs.Index.{room_of};
ghost use Rattle.frames.specs.Machine.{walk};
ghost use Rattle.answers.specs.Answers.{no_pool};
ghost use Rattle.locate.specs.Asked.{holder};
ghost use Rattle.locate.specs.View.{part, Lies, by_pool};
ghost use Rattle.differences.specs.View.{AskedAs, GivesBetween};
ghost use Rattle.differences.specs.Difference.{Gives};

use base::{Fault, Refusal};
use differences::Side;
use locate::{First, Located};

// A file whose field 0 has the data s[d..e]. starts gets the index of its strings.
fn find_with(
    s: &[u8],
    d: usize,
    e: usize,
    id: &[u8],
    t: u64,
    starts: &mut [u32],
) -> Result<Side, Fault>
    requires { Lies s.now d e × (room_of (part d e s.now) ≤ length starts.old) × Finite t }
    ensures { AskedAs s.now (by_pool id.now s.now d e (parse_pool (part d e s.now))) starts.new t result }
{
    match asked_zones::walk(s, d, e, id, starts) {
        Located::Refused(n, p) => Err((n, p)),
        Located::Cut(p) => Err((Refusal::CutShort, p)),
        Located::End(p) => Err((Refusal::NotFound, p)),
        Located::Found(v) => {
            let from = v.start;
            let to = v.past;
            let count = v.count as u64;
            match listed_cursors::first(&s[from..to], count) {
                Err(n) => Err((n, v.place)),
                Ok((c, ending)) => {
                    let cursor = cursor_steps::seek(&s[from..to], count, c, ending, t);
                    Ok(Side {
                        pool: d,
                        past: e,
                        from: from,
                        to: to,
                        count: count,
                        ending: ending,
                        cursor: cursor,
                    })
                }
            }
        }
    }
}

// The zone with the bytes id in a whole file, at the instant t.
pub fn find(s: &[u8], id: &[u8], t: u64, starts: &mut [u32]) -> Result<Side, Fault>
    requires { (8192 ≤ length starts.old) × Finite t }
    ensures { AskedAs s.now (walk (holder id.now) no_pool s.now) starts.new t result }
{
    match first_fields::read_first(s) {
        First::Refused(n, p) => Err((n, p)),
        First::Cut(p) => Err((Refusal::CutShort, p)),
        First::End(p) => Err((Refusal::NotFound, p)),
        First::Pool(d, e) => find_with(s, d, e, id, t, starts),
    }
}

// From the instant first to before the instant last.
fn between(
    f: &[u8],
    g: &[u8],
    id: &[u8],
    first: u64,
    last: u64,
    out: &mut [i64],
) -> Result<usize, Fault>
    requires { Finite first × Finite last }
    ensures { GivesBetween f.now g.now id.now first last out.old result out.new }
{
    let mut sf = [0u32; 8192];
    let x = find(f, id, first, &mut sf)?;
    let mut sg = [0u32; 8192];
    let y = find(g, id, first, &mut sg)?;
    difference_lists::list(f, &sf, x, g, &sg, y, first, last, out)
}

// The stretches of the window from the tick first to before the tick last at which two whole files differ in the zone with the bytes id: in
// offset, savings or name. Each is two numbers of the lent list, its first instant and its end; the result is how many there are.
pub fn difference(
    f: &[u8],
    g: &[u8],
    id: &[u8],
    first: i64,
    last: i64,
    out: &mut [i64],
) -> Result<usize, Fault>
    ensures { Gives f.now g.now id.now first last out.old result out.new }
{
    let a = signed::instant(first);
    if a == 0 {
        return Err((Refusal::OutOfRange, 0));
    }
    let b = signed::instant(last);
    if b == 0 {
        return Err((Refusal::OutOfRange, 0));
    }
    between(f, g, id, a, b, out)
}
