// The interval of a zone that holds an instant.
#![tactic(auto)]

ghost use Rattle.std.specs.Prelude.{◌≡◌};
ghost use Rattle.base.specs.Moment.{Finite};
ghost use Rattle.zones.specs.Parse.{parse_zone};
ghost use Rattle.zones.specs.Lookup.{answer_of};

use base::{END, Refusal};
use lookups::ZoneRead;
use zones::{Edition, Found};

// The interval of a zone that holds the instant t under an edition, all of the zone checked.
pub fn find(s: &[u8], pool: u64, t: u64, edition: Edition) -> Result<Found, Refusal>
    requires { Finite t }
    ensures { result ≡ answer_of edition t (parse_zone pool s.now) }
{
    match zone_reads::read_zone(s, pool, t, false) {
        ZoneRead::Refused(k) => Err(k),
        ZoneRead::Fixed(id, offset, n, _) => {
            let name = lookups::fixed_name(edition, id, n);
            Ok(Found {
                wall: offset,
                savings: 86400000,
                name: name,
                start: 0,
                end: END,
            })
        }
        ZoneRead::Listed(_, c, _) => Ok(lookups::held_until(c, END)),
        ZoneRead::Tailed(_, c, n, _) => {
            let tail = n.tail;
            if t < tail.start {
                return Ok(lookups::held_until(c, tail.start));
            }
            Ok(lookups::in_tail(t, n))
        }
    }
}
