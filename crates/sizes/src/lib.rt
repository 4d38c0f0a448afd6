// A field's size, and the whole field by it; the fields of a file whose fields are whole, one by one.
#![tactic(auto)]

ghost use Rattle.std.specs.Prelude.{◌<◌, ◌+◌, length, ◌≡◌, ltb};
ghost use Rattle.sizes.specs.View.{IsField};
ghost use Rattle.frames.specs.Frame.{largest, read_size, sized as sized_of};

use base::{Coded, Refusal};
use frames::Frame;

// The largest place just past a field.
const LARGEST: usize = 4194304;

// Whether `n` bytes from the place `at` on pass the largest place.
fn beyond(at: usize, n: usize) -> bool
    ensures { result ≡ ltb largest (at + n) }
{
    if LARGEST < at {
        return true;
    }
    LARGEST - at < n
}

// The size at the front of `r`. One byte, the usual size, takes no call.
pub fn read_size(r: &[u8]) -> Coded<u64>
    ensures { result ≡ read_size r.now }
{
    if 0 < r.len() {
        let b = r[0] as u64;
        if b < 128 {
            return Ok((b, 1));
        }
    }
    count_readers::read_any(r, 7)
}

// The field with the ID `i` at the place `at`, where `r` is what follows its ID byte.
pub fn sized(r: &[u8], at: usize, i: u8) -> Frame
    ensures { result ≡ sized_of at i r.now (read_size r.now) }
{
    match read_size(r) {
        Err(Refusal::BadData) => Frame::Cut,
        Err(_) => Frame::Refused(Refusal::BadCode),
        Ok((v, u)) => {
            let n = v as usize;
            if beyond(at, 1 + u + n) {
                return Frame::Refused(Refusal::TooLarge);
            }
            if u + n <= r.len() {
                return Frame::Whole(i, 1 + u, n);
            }
            Frame::Cut
        }
    }
}

// A field's ID, and where its data start and end.
#[derive(Clone, Copy)]
pub struct Extent {
    pub id: u8,
    pub start: usize,
    pub end: usize,
}

// The field at a place of a file whose fields are whole.
pub fn read_field(s: &[u8], at: usize) -> Extent
    requires { at < length s.now }
    ensures { IsField s.now at result }
{
    let a = at + 1;
    match read_size(&s[a..]) {
        Err(_) => Extent {
            id: 0,
            start: a,
            end: a,
        },
        Ok((n, u)) => {
            let start = a + u;
            Extent {
                id: s[at],
                start: start,
                end: start + n as usize,
            }
        }
    }
}
