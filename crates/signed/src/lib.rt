// The edge between signed numbers, as callers use them, and the unsigned ones that all else computes with.
#![tactic(auto)]

ghost use Rattle.std.specs.Prelude.{◌≡◌, ◌<◌, nat_abs};
ghost use Rattle.base.specs.Moment.{Finite};
ghost use Rattle.signed.specs.Instant.{instant_of, ticks_of, moment_of, from_raw, raw_of};
ghost use Rattle.signed.specs.OffsetSum.{sum_of, milliseconds_of};
ghost use Rattle.signed.specs.Zigzag.{zigzag_of, unzigzag_of};

// The instant of a tick since 1970, or 0 outside year 1 to 9999.
pub fn instant(t: i64) -> u64
    ensures { result ≡ instant_of t }
{
    if t < -621355968000000000 {
        return 0;
    }
    if t > 2534023007999999999 {
        return 0;
    }
    (t + 747583776000000000) as u64
}

// The tick since 1970 of a moment: the least number for start of time, the largest for end of time.
pub fn ticks(b: u64) -> i64
    ensures { result ≡ ticks_of b }
{
    if b == 0 {
        return -9223372036854775808;
    }
    if b < 3281606784000000000 {
        return (b as i64) - 747583776000000000;
    }
    9223372036854775807
}

// The moment of a tick since 1970, marks included, or 1 where there is none.
pub fn moment(t: i64) -> u64
    ensures { result ≡ moment_of t }
{
    if t < -9223372036854775807 {
        return 0;
    }
    if t > 9223372036854775806 {
        return 3281606784000000000;
    }
    let b = instant(t);
    if b == 0 {
        return 1;
    }
    b
}

// The instant of eight bytes' bits, or 0 outside year 1 to 9999.
pub fn from_raw(raw: u64) -> u64
    ensures { result ≡ from_raw raw }
{
    if raw <= 2534023007999999999 {
        return raw + 747583776000000000;
    }
    if 17825388105709551616 <= raw {
        return raw - 17699160297709551616;
    }
    0
}

// The bits of an instant's tick since 1970.
pub fn raw_of(b: u64) -> u64
    requires { Finite b }
    ensures { result ≡ raw_of b }
{
    if b < 747583776000000000 {
        return b + 17699160297709551616;
    }
    b - 747583776000000000
}

// The milliseconds of an offset code's sum.
pub fn milliseconds(sum: u64) -> i64
    requires { sum < 4294967296 }
    ensures { result ≡ milliseconds_of sum }
{
    (sum as i64) - 86400000
}

// The offset code's sum, or 0 where the offset isn't inside 24 hours either way.
pub fn offset_sum(ms: i64) -> u64
    ensures { result ≡ sum_of ms }
{
    if ms < -86399999 {
        return 0;
    }
    if ms > 86399999 {
        return 0;
    }
    (ms + 86400000) as u64
}

// The signed value of a signed count's number.
pub fn unzigzag(u: u64) -> i64
    ensures { result ≡ unzigzag_of u }
{
    let half = (u / 2) as i64;
    if u % 2 == 0 { half } else { -1 - half }
}

// The signed count's number of a 32-bit value, or 4294967296 for any other.
pub fn zigzag(v: i64) -> u64
    ensures { result ≡ zigzag_of v }
{
    if v < -2147483648 {
        return 4294967296;
    }
    if v > 2147483647 {
        return 4294967296;
    }
    if v < 0 {
        return ((-1 - v) as u64) * 2 + 1;
    }
    (v as u64) * 2
}

// The number without its sign.
pub fn magnitude(z: i64) -> u64
    ensures { result ≡ nat_abs z }
{
    if z < 0 {
        return (-1 - z) as u64 + 1;
    }
    z as u64
}
