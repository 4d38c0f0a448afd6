// What stands at a place of a file: its version, or a field by its ID and size.
#![tactic(auto)]

ghost use Rattle.std.specs.Prelude.{◌≡◌};
ghost use Rattle.frames.specs.Frame.{once as once_of, order as order_of, version as version_of};
ghost use Rattle.frames.specs.Frame.{field as field_of, frame};

use base::Refusal;
use frames::Frame;

// Whether the ID `i` may stand once only.
fn once(i: u8) -> bool
    ensures { result ≡ once_of i }
{
    if i == 1 {
        return false;
    }
    i < 8
}

// The refusal, if any, of the ID `i` behind a field with the ID `prev`, or as the first.
fn order(seen: bool, prev: usize, i: u8) -> Option<Refusal>
    ensures { result ≡ order_of seen prev i }
{
    if seen {
        let id = i as usize;
        if id < prev {
            return Some(Refusal::FieldOrder);
        }
        if id != prev {
            return None;
        }
        if once(i) {
            return Some(Refusal::FieldOrder);
        }
        return None;
    }
    if i == 0 {
        return None;
    }
    Some(Refusal::FirstField)
}

// The version at the front of `r`.
pub fn version(r: &[u8]) -> Frame
    ensures { result ≡ version_of r.now }
{
    if r.len() < 4 {
        return Frame::Cut;
    }
    if r[0] != 0 {
        return Frame::Refused(Refusal::WrongVersion);
    }
    if r[1] != 0 {
        return Frame::Refused(Refusal::WrongVersion);
    }
    if r[2] != 0 {
        return Frame::Refused(Refusal::WrongVersion);
    }
    if r[3] != 0 {
        return Frame::Refused(Refusal::WrongVersion);
    }
    Frame::Version
}

// The field at the place `at`, where `r` is what stands from there on.
fn field(r: &[u8], last: u8, at: usize, seen: bool, prev: usize) -> Frame
    ensures { result ≡ field_of last at seen prev r.now }
{
    if r.len() == 0 {
        return Frame::End;
    }
    let i = r[0];
    if let Some(k) = order(seen, prev, i) {
        return Frame::Refused(k);
    }
    if last < i {
        return Frame::Refused(Refusal::NotFound);
    }
    sizes::sized(&r[1..], at, i)
}

// What stands at the place `at`, where `r` is the bytes from there on, for a job that goes to no ID above `last`.
pub fn read_frame(r: &[u8], last: u8, at: usize, seen: bool, prev: usize) -> Frame
    ensures { result ≡ frame last at seen prev r.now }
{
    if at == 0 {
        return version(r);
    }
    field(r, last, at, seen, prev)
}

// The same, for walks over all fields: a zone behind a zone, the usual field, takes no call where its size has one or two bytes, unless it stands
// near the largest place.
pub fn next_frame(r: &[u8], last: u8, at: usize, seen: bool, prev: usize) -> Frame
    ensures { result ≡ frame last at seen prev r.now }
{
    if seen {
        if prev == 1 {
            if 0 < last {
                if 0 < at {
                    if at < 4177919 {
                        if 2 < r.len() {
                            if r[0] == 1 {
                                let b = r[1] as usize;
                                let c = r[2] as usize;
                                if b < 128 {
                                    if 2 + b <= r.len() {
                                        return Frame::Whole(1, 2, b);
                                    }
                                } else {
                                    if c < 128 {
                                        let n = b % 128 + 128 * c;
                                        if 3 + n <= r.len() {
                                            return Frame::Whole(1, 3, n);
                                        }
                                    }
                                }
                            }
                        }
                    }
                }
            }
        }
    }
    read_frame(r, last, at, seen, prev)
}
