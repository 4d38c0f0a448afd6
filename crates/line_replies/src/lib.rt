// The reply to one question line, from a file: 01, "One whole file".
#![tactic(auto)]

ghost use Rattle.std.specs.Prelude.{◌≡◌, ◌≤◌, length};
ghost use Rattle.base.specs.Writing.{bytes, wrote, placed};
ghost use Rattle.line_replies.specs.Output.{reply_of, line_of};

use answers::Found;
use base::{Fault, Refusal};

// The line that the program writes for a question line, with the file s. It has at most 65,605 bytes: a name of at most 65,536, three
// numbers of at most 21, and six more.
pub fn reply(s: &[u8], line: &[u8], out: &mut [u8]) -> Result<usize, Refusal>
    ensures value { (result ≡ wrote (bytes (reply_of s.now line.now)) out.old) × (out.new ≡ placed (bytes (reply_of s.now line.now)) out.old) }
    ensures line_len_bound { length (reply_of s.now line.now) ≤ 65605 }
{
    if 65536 < s.len() {
        return answer_lines::write_refusal(4, 0, out);
    }
    match parsed_lines::parse_line(line) {
        Some((n, t, kind)) => write_line(s, asked_lines::ask(s, &line[..n], t, kind), out),
        None => answer_lines::write_refusal(16, 0, out),
    }
}

fn write_line(s: &[u8], answer: Result<Found, Fault>, out: &mut [u8]) -> Result<usize, Refusal>
    ensures value { (result ≡ wrote (bytes (line_of s.now answer)) out.old) × (out.new ≡ placed (bytes (line_of s.now answer)) out.old) }
    ensures answer_len_bound { length s.now ≤ 65536 → length (line_of s.now answer) ≤ 65605 }
{
    match answer {
        Ok(found) => answer_lines::write_answer(
            found.wall,
            found.savings,
            found.standard,
            answers::name_of(s, found),
            out,
        ),
        Err((refusal, place)) => answer_lines::write_refusal(refusal.number(), place as u64, out),
    }
}
