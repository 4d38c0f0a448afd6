// The question that a line of the program asks.
#![tactic(auto)]

ghost use Rattle.std.specs.Prelude.{◌≡◌};
ghost use Rattle.asked_lines.specs.Asked.{asked_by};

use answers::{Found, Mark};
use base::Fault;
use lines::Kind;
use zones::Edition;

// The question of a kind for the zone with the bytes zone, at the tick t.
pub fn ask(s: &[u8], zone: &[u8], t: i64, kind: Kind) -> Result<Found, Fault>
    ensures { result ≡ asked_by s.now zone.now t kind }
{
    match kind {
        Kind::Plain => marked_questions::ask_plain(s, zone, t, Edition::Two),
        Kind::Part => marked_questions::ask(s, zone, t, Mark::More, Edition::Two),
        Kind::All => marked_questions::ask(s, zone, t, Mark::All, Edition::Two),
    }
}
