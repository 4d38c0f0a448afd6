// What a question says: the answer of an interval, the mark's part in it, and the answer's name.
#![tactic(auto)]

ghost use Rattle.std.specs.Prelude.{◌≡◌, ◌+◌, ◌≤◌, ◌<◌, length};
ghost use Rattle.pool.specs.Pool.{strings_of};
ghost use Rattle.pool.specs.Index.{Ready};
ghost use Rattle.zones.specs.Sound.{FoundOk};
ghost use Rattle.answers.specs.Answers.{answer_by, answered as answered_of, pool_of, answer_of, name_of};

use base::{Fault, Refusal};
use strings::Holder;
use zones::Found as Interval;

// Whether more bytes may come.
#[derive(Clone, Copy)]
pub enum Mark {
    More,
    All,
}

// An answer: offsets in milliseconds, the standard offset being wall minus savings, the place and the length of the name in the asked bytes, start and end in ticks since 1970; the
// least i64 is start of time and the largest is end of time.
#[derive(Clone, Copy)]
pub struct Found {
    pub wall: i64,
    pub savings: i64,
    pub standard: i64,
    pub name: usize,
    pub length: usize,
    pub start: i64,
    pub end: i64,
}

// What a walk comes to. Cut and End are the two ways of having too few bytes: inside the version or a field, and at the end of one.
#[derive(Clone, Copy)]
pub enum Outcome {
    Answered(Found),
    Refused(Refusal, usize),
    Cut(usize),
    End(usize),
}

// The answer of an interval whose name is so many bytes at a place.
pub fn answer_of(name: usize, length: usize, x: Interval) -> Found
    requires { (x.wall < 172800000) × (x.savings < 172800000) × (x.savings < x.wall + 86400000) }
    ensures { result ≡ answer_by name length x }
{
    let wall = signed::milliseconds(x.wall);
    let savings = signed::milliseconds(x.savings);
    let standard = signed::milliseconds(x.wall + 86400000 - x.savings);
    let from = signed::ticks(x.start);
    let to = signed::ticks(x.end);
    Found {
        wall: wall,
        savings: savings,
        standard: standard,
        name: name,
        length: length,
        start: from,
        end: to,
    }
}

pub fn answered(pool: &[u8], starts: &[u32], start: usize, x: Interval) -> Found
    requires { Ready pool.now starts.now × FoundOk (length (strings_of pool.now)) x × (start ≤ 4194304) × (length pool.now ≤ 4194304) }
    ensures { result ≡ answered_of (pool_of start pool.now) x }
{
    let k = x.name as usize;
    let p = strings::span_by(pool, starts, k);
    answer_of(start + p.at, p.len, x)
}

// The mark is used here and nowhere else.
pub fn finish(o: Outcome, mark: Mark) -> Result<Found, Fault>
    ensures { result ≡ answer_of mark o }
{
    match o {
        Outcome::Answered(x) => Ok(x),
        Outcome::Refused(n, p) => Err((n, p)),
        Outcome::Cut(p) => match mark {
            Mark::More => Err((Refusal::NotYet, p)),
            Mark::All => Err((Refusal::CutShort, p)),
        },
        Outcome::End(p) => match mark {
            Mark::More => Err((Refusal::NotYet, p)),
            Mark::All => Err((Refusal::NotFound, p)),
        },
    }
}

// The name of an answer, as a part of the asked bytes, which have the pool in them.
pub fn name_of<'a>(s: &'a [u8], x: Found) -> &'a [u8]
    ensures { result.now ≡ name_of s.now x }
{
    strings::text_of(s, s, Holder::InPool(x.name, x.length))
}
