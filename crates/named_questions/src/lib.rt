// The named question, on any bytes: the walk to the zone that a name leads to, by its ID or over aliases, and the answer there.
#![tactic(auto)]

ghost use Rattle.std.specs.Prelude.{◌≡◌, ◌≤◌, length, drop, [], true};
ghost use Rattle.pool.specs.Pool.{strings_of, parse_pool};
ghost use Rattle.pool.specs.Index.{Ready, starts_of, room_of};
ghost use Rattle.locate.specs.View.{part, Lies, pool_at};
ghost use Rattle.named_fields.specs.View.{JudgedAliases, known_at, Clear, NamedAs, by_pool};
ghost use Rattle.std.proofs.lemmas.List.Edits.{sets};
ghost use Rattle.base.specs.Moment.{Finite};
ghost use Rattle.frames.specs.Machine.{from, state_at, walk};
ghost use Rattle.frames.specs.Mapped.{map_out};
ghost use Rattle.locate.specs.Asked.{held, of_held};
ghost use Rattle.questions.specs.Question.{answer_at};
ghost use Rattle.questions.specs.View.{outcome_of};
ghost use Rattle.named_fields.specs.Named.{nothing, naming, ask_named};

use alias_lookup::Target;
use answers::{Found, Mark, Outcome};
use base::{Fault, Refusal};
use frames::Frame;
use locate::{First, Judged, Located, Spot};
use zones::Edition;

// Field 3 in s[d..q], whose ID byte is at a place: what the name leads to. It is no zone's ID, so its zone is that of a target.
pub fn follow(
    s: &[u8],
    starts: &[u32],
    start: usize,
    end: usize,
    count: usize,
    place: usize,
    d: usize,
    q: usize,
    name: &[u8],
    flags: &[u8],
) -> Located
    requires { Lies s.now start end × Ready (part start end s.now) starts.now × (count ≡ length (strings_of (part start end s.now))) × (count ≤ length flags.now) × (d ≤ q) × (q ≤ length s.now) }
    ensures { JudgedAliases name.now s.now start end place d q flags.now result }
{
    let v = aliases::check(&s[start..end], starts, count, &s[d..q]);
    match v {
        Err(n) => Located::Refused(n, place),
        Ok(()) => {
            let t = alias_lookup::lookup(&s[start..end], starts, count, &s[d..q], flags, name, 8);
            match t {
                Target::Unknown => Located::Refused(Refusal::NotFound, place),
                Target::Deep => Located::Refused(Refusal::TooManySteps, place),
                Target::Zone(k) => asked_zones::walk_zones(
                    s,
                    starts,
                    start,
                    end,
                    count,
                    strings::text_by(&s[start..end], starts, k),
                    true,
                ),
            }
        }
    }
}

// The fields behind field 0, whose data is s[start..end]. flags gets those of the zones that are passed.
fn walk_fields(
    s: &[u8],
    starts: &[u32],
    start: usize,
    end: usize,
    count: usize,
    name: &[u8],
    flags: &mut [u8],
) -> Located
    requires { Lies s.now start end × Ready (part start end s.now) starts.now × (count ≡ length (strings_of (part start end s.now))) × (count ≤ length flags.old) × Clear flags.old }
    ensures { NamedAs s.now (pool_at s.now start end) (from (naming held name.now) (state_at end (drop end s.now) true 0 (known_at s.now start end []))) result }
{
    let mut at = end;
    let mut prev: usize = 0;
    loop {
        let f = headers::next_frame(&s[at..], 3, at, true, prev);
        match f {
            Frame::End => {
                return Located::End(at);
            }
            Frame::Cut => {
                return Located::Cut(at);
            }
            Frame::Refused(n) => {
                return Located::Refused(n, at);
            }
            // The version stands at place 0 only.
            Frame::Version => {
                return Located::Cut(at);
            }
            Frame::Whole(i, h, n) => {
                let d = at + h;
                let e = d + n;
                if i == 3 {
                    return follow(s, starts, start, end, count, at, d, e, name, &*flags);
                }
                let j = named_fields::judge_field(
                    s, starts, start, end, count, i, d, e, name, flags,
                );
                match j {
                    Judged::Here => {
                        return Located::Found(Spot {
                            place: at,
                            start: d,
                            past: e,
                            count: count,
                        });
                    }
                    Judged::Fault(k) => {
                        return Located::Refused(k, at);
                    }
                    Judged::Keep => {
                        at = e;
                        prev = i as usize;
                    }
                }
            }
        }
    }
}

// Field 0, whose data is s[d..e], and the fields behind it. starts gets the index of its strings.
fn walk_named(
    s: &[u8],
    d: usize,
    e: usize,
    name: &[u8],
    starts: &mut [u32],
    flags: &mut [u8],
) -> Located
    requires { Lies s.now d e × (room_of (part d e s.now) ≤ length starts.old) × (room_of (part d e s.now) ≤ length flags.old) × Clear flags.old }
    ensures { NamedAs s.now (pool_at s.now d e) (by_pool name.now s.now d e (parse_pool (part d e s.now))) result × (starts.new ≡ sets starts.old 0 (starts_of (part d e s.now))) }
{
    match pool::check_pool(&s[d..e], starts) {
        Err(m) => Located::Refused(m, 4),
        Ok(k) => walk_fields(s, &*starts, d, e, k, name, flags),
    }
}

// The question on a file whose field 0 has the data s[d..e].
fn ask_with(
    s: &[u8],
    d: usize,
    e: usize,
    name: &[u8],
    t: u64,
    edition: Edition,
    starts: &mut [u32],
    flags: &mut [u8],
) -> Outcome
    requires { Lies s.now d e × (room_of (part d e s.now) ≤ length starts.old) × (room_of (part d e s.now) ≤ length flags.old) × Clear flags.old × Finite t }
    ensures { result ≡ outcome_of (map_out (of_held (answer_at edition t)) (by_pool name.now s.now d e (parse_pool (part d e s.now)))) }
{
    let l = walk_named(s, d, e, name, starts, flags);
    questions::answer_at(s, &*starts, d, e, t, edition, l)
}

// The same with an index and flags of its own, for a pool of few strings: short ones are cleared at once.
fn ask_short(s: &[u8], d: usize, e: usize, name: &[u8], t: u64, edition: Edition) -> Outcome
    requires { Lies s.now d e × (room_of (part d e s.now) ≤ 256) × Finite t }
    ensures { result ≡ outcome_of (map_out (of_held (answer_at edition t)) (by_pool name.now s.now d e (parse_pool (part d e s.now)))) }
{
    let mut starts = [0u32; 256];
    let mut flags = [0u8; 256];
    ask_with(s, d, e, name, t, edition, &mut starts, &mut flags)
}

// The same for every pool.
fn ask_long(s: &[u8], d: usize, e: usize, name: &[u8], t: u64, edition: Edition) -> Outcome
    requires { Lies s.now d e × Finite t }
    ensures { result ≡ outcome_of (map_out (of_held (answer_at edition t)) (by_pool name.now s.now d e (parse_pool (part d e s.now)))) }
{
    let mut starts = [0u32; 8192];
    let mut flags = [0u8; 8192];
    ask_with(s, d, e, name, t, edition, &mut starts, &mut flags)
}

// The question without its mark, at an instant in range.
fn ask_at(s: &[u8], name: &[u8], t: u64, edition: Edition) -> Outcome
    requires { Finite t }
    ensures { result ≡ outcome_of (walk (naming (answer_at edition t) name.now) nothing s.now) }
{
    match first_fields::read_first(s) {
        First::Refused(n, p) => Outcome::Refused(n, p),
        First::Cut(p) => Outcome::Cut(p),
        First::End(p) => Outcome::End(p),
        First::Pool(d, e) => {
            if pool::room(&s[d..e]) <= 256 {
                return ask_short(s, d, e, name, t, edition);
            }
            ask_long(s, d, e, name, t, edition)
        }
    }
}

// The named question: the zone with the bytes name for its ID, or else the one that the alias name leads to, at a tick since 1970, under an edition.
pub fn ask_named(
    s: &[u8],
    name: &[u8],
    ticks: i64,
    mark: Mark,
    edition: Edition,
) -> Result<Found, Fault>
    ensures { result ≡ ask_named s.now name.now ticks mark edition }
{
    let t = signed::instant(ticks);
    if t == 0 {
        return Err((Refusal::OutOfRange, 0));
    }
    let o = ask_at(s, name, t, edition);
    answers::finish(o, mark)
}
