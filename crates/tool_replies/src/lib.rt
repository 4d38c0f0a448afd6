// What the C functions of Ask 14 have of their own: the number of a report.
#![tactic(auto)]

ghost use Rattle.replies.specs.Reply.{Gives};
ghost use Rattle.tool_replies.specs.Functions.{report_reply};
ghost use Rattle.tool_replies.specs.Small.{SmallReport};

use base::Fault;

// The number of the record that a replay reports, or -1 where it reports none.
pub fn give_report(x: Result<Option<u64>, Fault>, out: &mut [i64; 1]) -> u64
    requires { SmallReport x }
    ensures { Gives (report_reply x) out.old result out.new }
{
    match x {
        Ok(Some(i)) => {
            *out = [i as i64];
            0
        }
        Ok(None) => {
            *out = [-1];
            0
        }
        Err((n, p)) => replies::refusal(n, p),
    }
}
