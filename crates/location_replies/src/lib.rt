// What the C functions say of a location and of its countries.
#![tactic(auto)]

ghost use Rattle.location_replies.specs.Locations.{GivesLocation, GivesCountry};
ghost use Rattle.location_replies.specs.Small.{SmallLocation};

use base::Fault;
use location_lookup::{Located, Pair};

// The pin, the texts and the view of a location.
pub fn give_location(a: Result<Located, Fault>, pin: &mut [f64; 2], out: &mut [u64; 8]) -> u64
    requires { SmallLocation a }
    ensures { GivesLocation a pin.old out.old result pin.new out.new }
{
    match a {
        Ok(x) => {
            let p = x.pin;
            let zone = x.zone;
            let comment = x.comment;
            *pin = [p.latitude, p.longitude];
            *out = [
                zone.at as u64,
                zone.len as u64,
                comment.at as u64,
                comment.len as u64,
                x.start as u64,
                x.end as u64,
                x.at as u64,
                x.left as u64,
            ];
            0
        }
        Err((n, p)) => replies::refusal(n, p),
    }
}

// The texts of a country, and the view behind it.
pub fn give_country(
    x: Option<Pair>,
    start: u64,
    end: u64,
    view: &mut [u64; 4],
    out: &mut [u64; 4],
) -> bool
    ensures { GivesCountry x start end view.old out.old result view.new out.new }
{
    match x {
        None => false,
        Some(p) => {
            let name = p.name;
            let code = p.code;
            *view = [start, end, p.at as u64, p.left as u64];
            *out = [
                name.at as u64,
                name.len as u64,
                code.at as u64,
                code.len as u64,
            ];
            true
        }
    }
}
