// A receiver of a file's bytes in pieces, over a buffer that its caller lends. Here it goes by value; capi changes it in place.
#![tactic(auto)]

ghost use Rattle.std.specs.Prelude.{◌≡◌};
ghost use Rattle.extents.specs.Extent.{extent_of};
ghost use Rattle.receivers.specs.Receive.{fresh, Adds};

use extents::Extent;
use receivers::{Outcome, Receiver};

// A new receiver, and one after a reset.
pub fn empty() -> Receiver
    ensures { result ≡ fresh }
{
    Receiver {
        held: 0,
        place: 0,
        prev: 0,
    }
}

// Where the whole fields end, from the place `from` on, which stays where it lies past the bytes.
fn onward(s: &[u8], from: Extent) -> Extent
    ensures { result ≡ extent_of s.now from }
{
    if s.len() < from.at {
        return from;
    }
    extents::whole_end(s, from)
}

// A piece put behind what is held, and the walk over heads gone on from where it stopped; or 15, and nothing changed.
pub fn added(r: Receiver, buffer: &mut [u8], piece: &[u8]) -> Outcome
    ensures { Adds r buffer.old piece.now result buffer.new }
{
    let held = r.held;
    let room = buffer.len();
    if room < held {
        return Outcome {
            receiver: r,
            number: 15,
        };
    }
    if room - held < piece.len() {
        return Outcome {
            receiver: r,
            number: 15,
        };
    }
    let end = held + copies::copy(piece, &mut buffer[held..]);
    let from = Extent {
        at: r.place,
        prev: r.prev,
    };
    let c = onward(&buffer[..end], from);
    Outcome {
        receiver: Receiver {
            held: end,
            place: c.at,
            prev: c.prev,
        },
        number: 0,
    }
}
