// The question with its mark, and the plain one.
#![tactic(auto)]

ghost use Rattle.std.specs.Prelude.{◌≡◌};
ghost use Rattle.questions.specs.Question.{ask as ask_of, ask_plain};

use answers::{Found, Mark};
use base::{Fault, Refusal};
use zones::Edition;

// The marked question: the zone with the bytes id, at a tick since 1970, under an edition.
pub fn ask(s: &[u8], id: &[u8], ticks: i64, mark: Mark, edition: Edition) -> Result<Found, Fault>
    ensures { result ≡ ask_of s.now id.now ticks mark edition }
{
    let t = signed::instant(ticks);
    if t == 0 {
        return Err((Refusal::OutOfRange, 0));
    }
    let o = questions::ask_at(s, id, t, edition);
    answers::finish(o, mark)
}

// The plain question: more may come.
pub fn ask_plain(s: &[u8], id: &[u8], ticks: i64, edition: Edition) -> Result<Found, Fault>
    ensures { result ≡ ask_plain s.now id.now ticks edition }
{
    ask(s, id, ticks, Mark::More, edition)
}
