// What the C functions say of a zone found once: its five numbers, and the zone that five numbers stand for.
#![tactic(auto)]

ghost use Rattle.std.specs.Prelude.{◌≡◌};
ghost use Rattle.zone_replies.specs.Zones.{GivesZone, zone_by};
ghost use Rattle.zone_replies.specs.Small.{SmallFinding};

use base::Fault;
use found_zones::FoundZone;

// The numbers of a found zone.
pub fn give_zone(x: Result<FoundZone, Fault>, out: &mut [u64; 5]) -> u64
    requires { SmallFinding x }
    ensures { GivesZone x out.old result out.new }
{
    match x {
        Ok(v) => {
            *out = [
                v.pool as u64,
                v.past as u64,
                v.start as u64,
                v.end as u64,
                v.place as u64,
            ];
            0
        }
        Err((n, p)) => replies::refusal(n, p),
    }
}

// The zone of five numbers, whatever they are.
pub fn zone_by(x: &[u64; 5]) -> FoundZone
    ensures { result ≡ zone_by x.now }
{
    let pool = x[0];
    let past = x[1];
    let start = x[2];
    let end = x[3];
    let place = x[4];
    FoundZone {
        pool: pool as usize,
        past: past as usize,
        start: start as usize,
        end: end as usize,
        place: place as usize,
    }
}
