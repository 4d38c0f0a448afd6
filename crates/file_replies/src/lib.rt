// What the C functions on files share: the numbers of an answer and of a mapping, and the mark and the edition of a question.
#![tactic(auto)]

ghost use Rattle.std.specs.Prelude.{◌≡◌};
ghost use Rattle.replies.specs.Reply.{Gives};
ghost use Rattle.file_replies.specs.Functions.{mark_of, answer_reply, mapping_reply, edition_of};
ghost use Rattle.file_replies.specs.Small.{SmallAnswer, SmallMapping};

use answers::{Found, Mark};
use base::Fault;
use zones::Edition;

pub fn mark_of(more: bool) -> Mark
    ensures { result ≡ mark_of more }
{
    if more {
        return Mark::More;
    }
    Mark::All
}

pub fn edition_of(first: bool) -> Edition
    ensures { result ≡ edition_of first }
{
    if first {
        return Edition::One;
    }
    Edition::Two
}

// The numbers of an answer.
pub fn give_answer(a: Result<Found, Fault>, out: &mut [i64; 7]) -> u64
    requires { SmallAnswer a }
    ensures { Gives (answer_reply a) out.old result out.new }
{
    match a {
        Ok(x) => {
            *out = [
                x.wall,
                x.savings,
                x.standard,
                x.name as i64,
                x.length as i64,
                x.start,
                x.end,
            ];
            0
        }
        Err((n, p)) => replies::refusal(n, p),
    }
}

// The numbers of a mapping.
pub fn give_mapping(m: Result<(u64, i64, i64), Fault>, out: &mut [i64; 3]) -> u64
    requires { SmallMapping m }
    ensures { Gives (mapping_reply m) out.old result out.new }
{
    match m {
        Ok((n, first, last)) => {
            *out = [n as i64, first, last];
            0
        }
        Err((n, p)) => replies::refusal(n, p),
    }
}
