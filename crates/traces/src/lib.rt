// A phone's trace: a header, records and names. All numbers are high first.
#![tactic(auto)]

ghost use Rattle.std.specs.Prelude.{◌≡◌, Bool, ◌+◌, ◌*◌, ◌≤◌, ◌<◌, length};
ghost use Rattle.std.specs.Int.{w32, w64};
ghost use Rattle.std.proofs.Common.{to_z};
ghost use Rattle.traces.specs.Trace.{number_at, within as within_of, names_within, trace_ok as trace_ok_of};

// The number of the eight bytes at a place, as a signed one.
pub fn signed_eight_at(s: &[u8], at: usize) -> i64
    requires { at + 8 ≤ length s.now }
    ensures { result ≡ to_z w64 (number_at 8 at s.now) }
{
    let high = count_readers::four_at(s, at);
    let low = count_readers::four_at(s, at + 4);
    signed_64(high * 4294967296 + low)
}

// The number of the four bytes at a place, as a signed one.
pub fn signed_four_at(s: &[u8], at: usize) -> i64
    requires { at + 4 ≤ length s.now }
    ensures { result ≡ to_z w32 (number_at 4 at s.now) }
{
    let v = count_readers::four_at(s, at);
    signed_32(v)
}

// The signed number of 64 bits.
fn signed_64(v: u64) -> i64
    ensures { result ≡ to_z w64 v }
{
    if v < 9223372036854775808 {
        return v as i64;
    }
    -1 - (18446744073709551615 - v) as i64
}

// The signed number of 32 bits.
fn signed_32(v: u64) -> i64
    requires { v < 4294967296 }
    ensures { result ≡ to_z w32 v }
{
    if v < 2147483648 {
        return v as i64;
    }
    (v as i64) - 4294967296
}

// Whether a part of some bytes, by its start and its size, lies in their length.
fn within(start: u64, size: u64, len: u64) -> bool
    ensures { result ≡ within_of start size len }
{
    if len < start {
        return false;
    }
    if len - start < size {
        return false;
    }
    true
}

// The same for a part of n records of 20 bytes; their product isn't computed, so that it can't wrap.
fn records_within(start: u64, n: u64, len: u64) -> bool
    ensures { result ≡ within_of start (n * 20) len }
{
    if len < start {
        return false;
    }
    if (len - start) / 20 < n {
        return false;
    }
    true
}

// Whether the names of the n records at a place lie in the names, which have `size` bytes.
fn names_within(s: &[u8], at: usize, n: u64, size: u64) -> bool
    requires { at + n * 20 ≤ length s.now }
    ensures { result ≡ names_within n at size s.now }
{
    let mut left = n;
    let mut place = at;
    while 0 < left {
        let start = count_readers::four_at(s, place + 8);
        let span = count_readers::four_at(s, place + 12);
        if within(start, span, size) {
            left -= 1;
            place += 20;
        } else {
            return false;
        }
    }
    true
}

// Whether header, records and names lie in the trace, and each record's name in the names.
pub fn trace_ok(s: &[u8]) -> bool
    ensures { result ≡ trace_ok_of s.now }
{
    if s.len() < 16 {
        return false;
    }
    let total = s.len() as u64;
    let n = count_readers::four_at(s, 0);
    let at = count_readers::four_at(s, 4);
    let size = count_readers::four_at(s, 8);
    let names = count_readers::four_at(s, 12);
    if records_within(at, n, total) {
        if within(names, size, total) {
            return names_within(s, at as usize, n, size);
        }
        return false;
    }
    false
}
