// Pins on the map: latitude and longitude in degrees, from whole seconds.
#![tactic(auto)]

ghost use Rattle.std.specs.Prelude.{◌≡◌, ◌%◌, pos, nat_abs};
ghost use Rattle.std.specs.Int.Signed.{quot_z};
ghost use Rattle.pins.specs.Degrees.{degrees_of, pin_of, Sixteenfold};

// A place on the map, in degrees north and east.
#[repr(C)]
#[derive(Clone, Copy)]
pub struct Pin {
    pub latitude: f64,
    pub longitude: f64,
}

// The degrees of so many seconds: one division.
pub fn degrees(seconds: i32) -> f64
    ensures nearest { result ≡ degrees_of seconds }
    ensures exact { Sixteenfold seconds result }
{
    seconds as f64 / 3600.0
}

// The pin of so many seconds north and east.
pub fn pin_of(latitude: i32, longitude: i32) -> Pin
    ensures { result ≡ pin_of latitude longitude }
{
    Pin {
        latitude: degrees(latitude),
        longitude: degrees(longitude),
    }
}

// Sixteen times the degrees of a multiple of 225 seconds: nothing was rounded off, so it is a whole number again.
pub fn sixteenths(seconds: i32) -> i32
    requires { nat_abs seconds % 225 ≡ 0 }
    ensures { result ≡ quot_z seconds (pos 225) }
{
    (degrees(seconds) * 16.0) as i32
}
