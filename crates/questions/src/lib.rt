// Asking one zone at one instant, on any bytes: the walk to the asked zone, the lookup there and the answer.
#![tactic(auto)]

ghost use Rattle.std.specs.Prelude.{◌≡◌, ◌≤◌, length};
ghost use Rattle.base.specs.Moment.{Finite};
ghost use Rattle.pool.specs.Pool.{parse_pool};
ghost use Rattle.pool.specs.Index.{room_of, Ready};
ghost use Rattle.frames.specs.Machine.{walk};
ghost use Rattle.answers.specs.Answers.{no_pool};
ghost use Rattle.locate.specs.View.{part, pool_at, Lies, by_pool, located_out, Within};
ghost use Rattle.questions.specs.Question.{question};
ghost use Rattle.questions.specs.View.{outcome_of, outcome_at};

use answers::Outcome;
use locate::{First, Located};
use zones::Edition;

// What a walk comes to at the instant t under an edition, by what it located; the data of field 0 is s[d..e].
pub fn answer_at(
    s: &[u8],
    starts: &[u32],
    d: usize,
    e: usize,
    t: u64,
    edition: Edition,
    l: Located,
) -> Outcome
    requires { Lies s.now d e × Ready (part d e s.now) starts.now × Finite t × Within s.now (pool_at s.now d e) l }
    ensures { result ≡ outcome_at edition t (located_out s.now (pool_at s.now d e) l) }
{
    match l {
        Located::Refused(n, p) => Outcome::Refused(n, p),
        Located::Cut(p) => Outcome::Cut(p),
        Located::End(p) => Outcome::End(p),
        Located::Found(v) => {
            let from = v.start;
            let to = v.past;
            match zone_lookups::find(&s[from..to], v.count as u64, t, edition) {
                Err(n) => Outcome::Refused(n, v.place),
                Ok(x) => Outcome::Answered(answers::answered(&s[d..e], starts, d, x)),
            }
        }
    }
}

// The question on a file whose field 0 has the data s[d..e]. starts gets the index of its strings.
fn ask_with(
    s: &[u8],
    d: usize,
    e: usize,
    id: &[u8],
    t: u64,
    edition: Edition,
    starts: &mut [u32],
) -> Outcome
    requires { Lies s.now d e × (room_of (part d e s.now) ≤ length starts.old) × Finite t }
    ensures { result ≡ outcome_at edition t (by_pool id.now s.now d e (parse_pool (part d e s.now))) }
{
    let l = asked_zones::walk(s, d, e, id, starts);
    answer_at(s, &*starts, d, e, t, edition, l)
}

// The same with an index of its own, for a pool of a few strings. The index is cleared at each question, so it is no longer than need be.
fn ask_tiny(s: &[u8], d: usize, e: usize, id: &[u8], t: u64, edition: Edition) -> Outcome
    requires { Lies s.now d e × (room_of (part d e s.now) ≤ 32) × Finite t }
    ensures { result ≡ outcome_at edition t (by_pool id.now s.now d e (parse_pool (part d e s.now))) }
{
    let mut starts = [0u32; 32];
    ask_with(s, d, e, id, t, edition, &mut starts)
}

// The same for a pool of at most 256 strings.
fn ask_short(s: &[u8], d: usize, e: usize, id: &[u8], t: u64, edition: Edition) -> Outcome
    requires { Lies s.now d e × (room_of (part d e s.now) ≤ 256) × Finite t }
    ensures { result ≡ outcome_at edition t (by_pool id.now s.now d e (parse_pool (part d e s.now))) }
{
    let mut starts = [0u32; 256];
    ask_with(s, d, e, id, t, edition, &mut starts)
}

// The same for a pool of at most 2,048.
fn ask_middle(s: &[u8], d: usize, e: usize, id: &[u8], t: u64, edition: Edition) -> Outcome
    requires { Lies s.now d e × (room_of (part d e s.now) ≤ 2048) × Finite t }
    ensures { result ≡ outcome_at edition t (by_pool id.now s.now d e (parse_pool (part d e s.now))) }
{
    let mut starts = [0u32; 2048];
    ask_with(s, d, e, id, t, edition, &mut starts)
}

// The same for every pool.
fn ask_long(s: &[u8], d: usize, e: usize, id: &[u8], t: u64, edition: Edition) -> Outcome
    requires { Lies s.now d e × Finite t }
    ensures { result ≡ outcome_at edition t (by_pool id.now s.now d e (parse_pool (part d e s.now))) }
{
    let mut starts = [0u32; 8192];
    ask_with(s, d, e, id, t, edition, &mut starts)
}

// The same with the shortest index that has room.
fn ask_by_room(s: &[u8], d: usize, e: usize, id: &[u8], t: u64, edition: Edition) -> Outcome
    requires { Lies s.now d e × Finite t }
    ensures { result ≡ outcome_at edition t (by_pool id.now s.now d e (parse_pool (part d e s.now))) }
{
    let n = pool::room(&s[d..e]);
    if n <= 32 {
        return ask_tiny(s, d, e, id, t, edition);
    }
    if n <= 256 {
        return ask_short(s, d, e, id, t, edition);
    }
    if n <= 2048 {
        return ask_middle(s, d, e, id, t, edition);
    }
    ask_long(s, d, e, id, t, edition)
}

// The question without its mark, at an instant in range.
pub fn ask_at(s: &[u8], id: &[u8], t: u64, edition: Edition) -> Outcome
    requires { Finite t }
    ensures { result ≡ outcome_of (walk (question edition id.now t) no_pool s.now) }
{
    match first_fields::read_first(s) {
        First::Refused(n, p) => Outcome::Refused(n, p),
        First::Cut(p) => Outcome::Cut(p),
        First::End(p) => Outcome::End(p),
        First::Pool(d, e) => ask_by_room(s, d, e, id, t, edition),
    }
}
