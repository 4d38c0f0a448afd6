// A location in a field's data, by its number.
#![tactic(auto)]

ghost use Rattle.std.specs.Prelude.{◌≡◌, ◌≤◌};
ghost use Rattle.signed.specs.Zigzag.{unzigzag_of};
ghost use Rattle.pins.specs.Degrees.{pin_of};
ghost use Rattle.location_lookup.specs.Location.{located_at, in_field};

use base::{Fault, Refusal};
use location_lookup::Located;
use locations::{LocationField, Spot};
use pins::Pin;

// The pin of seconds as signed counts have them.
fn pin_at(latitude: u64, longitude: u64) -> Pin
    requires { (latitude ≤ 648000) × (longitude ≤ 1296000) }
    ensures { result ≡ pin_of (unzigzag_of latitude) (unzigzag_of longitude) }
{
    let north = signed::unzigzag(latitude);
    let east = signed::unzigzag(longitude);
    pins::pin_of(north as i32, east as i32)
}

// A location that was found in the field whose data go from a to e.
fn locate(s: &[u8], b: usize, c: usize, a: usize, e: usize, x: Spot) -> Located
    requires { (x.latitude ≤ 648000) × (x.longitude ≤ 1296000) }
    ensures { result ≡ located_at s.now b c a e x }
{
    let pin = pin_at(x.latitude, x.longitude);
    let zone = location_lookup::text_in(s, b, c, x.zone);
    let comment = location_lookup::text_in(s, b, c, x.comment);
    Located {
        pin: pin,
        zone: zone,
        comment: comment,
        start: a,
        end: e,
        at: x.at,
        left: x.left as usize,
    }
}

// The location with a number in the field at the place p, whose data go from a to e; those of the pool go from b to c.
pub fn in_field(
    s: &[u8],
    b: usize,
    c: usize,
    p: usize,
    a: usize,
    e: usize,
    field: LocationField,
    number: u64,
) -> Result<Located, Fault>
    ensures { result ≡ in_field s.now b c p a e field number }
{
    let count = pool::room(location_lookup::lent(s, b, c));
    let found = location_reads::find(location_lookup::lent(s, a, e), field, count as u64, number);
    match found {
        Ok(Some(x)) => Ok(locate(s, b, c, a, e, x)),
        Ok(None) => Err((Refusal::NotFound, p)),
        Err(k) => Err((k, p)),
    }
}
