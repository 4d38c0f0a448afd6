// A location of a whole file by field and number, all checked first.
#![tactic(auto)]

ghost use Rattle.std.specs.Prelude.{◌≡◌};
ghost use Rattle.locations.specs.Content.{id_of};
ghost use Rattle.location_lookup.specs.Location.{in_file, location_of};
ghost use Rattle.file_locations.specs.ByField.{location_by};

use base::{Fault, Refusal};
use location_lookup::Located;
use locations::LocationField;

fn id_of(field: LocationField) -> u8
    ensures { result ≡ id_of field }
{
    match field {
        LocationField::Zone => 6,
        LocationField::Zone1970 => 7,
    }
}

// The location with a number in a field of a file that is checked.
fn in_file(s: &[u8], field: LocationField, number: u64) -> Result<Located, Fault>
    ensures { result ≡ in_file s.now field number }
{
    match field_search::find_field(s, 0) {
        None => Err((Refusal::NotFound, s.len())),
        Some((_, b, c)) => match field_search::find_field(s, id_of(field)) {
            None => Err((Refusal::NotFound, s.len())),
            Some((p, a, e)) => location_fields::in_field(s, b, c, p, a, e, field, number),
        },
    }
}

// The location with a number, from 0, in a field of a whole file, all checked first.
pub fn location(s: &[u8], field: LocationField, number: u64) -> Result<Located, Fault>
    ensures { result ≡ location_of s.now field number }
{
    checks::check(s)?;
    in_file(s, field, number)
}

// The location of a field with any number.
pub fn location_by(file: &[u8], field: u64, number: u64) -> Result<Located, Fault>
    ensures { result ≡ location_by file.now field number }
{
    if field == 6 {
        return location(file, LocationField::Zone, number);
    }
    if field == 7 {
        return location(file, LocationField::Zone1970, number);
    }
    checks::check(file)?;
    Err((Refusal::NotFound, file.len()))
}
