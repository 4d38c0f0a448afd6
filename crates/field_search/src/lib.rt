// Where the field with a given ID stands in a file.
#![tactic(auto)]

ghost use Rattle.std.specs.Prelude.{◌≡◌, ◌≤◌, length};
ghost use Rattle.field_search.specs.Search.{field_place, behind_version};

use frames::Frame;

// The same behind the version.
fn seek(s: &[u8], id: u8) -> Option<(usize, usize, usize)>
    requires { 4 ≤ length s.now }
    ensures { result ≡ behind_version id s.now }
{
    let mut at: usize = 4;
    let mut prev: usize = 0;
    loop {
        let f = headers::read_frame(&s[at..], 255, at, 4 < at, prev);
        match f {
            Frame::End => {
                return None;
            }
            Frame::Cut => {
                return None;
            }
            Frame::Refused(_) => {
                return None;
            }
            // The version stands at place 0 only.
            Frame::Version => {
                return None;
            }
            Frame::Whole(i, h, n) => {
                let d = at + h;
                let e = d + n;
                if i == id {
                    return Some((at, d, e));
                }
                at = e;
                prev = i as usize;
            }
        }
    }
}

// The first field with the ID among the whole fields of a file: the place of its ID byte, and where its data start and end.
pub fn find_field(s: &[u8], id: u8) -> Option<(usize, usize, usize)>
    ensures { result ≡ field_place id s.now }
{
    match headers::read_frame(s, 255, 0, false, 0) {
        Frame::Version => seek(s, id),
        Frame::End => None,
        Frame::Cut => None,
        Frame::Refused(_) => None,
        // No field stands at place 0.
        Frame::Whole(_, _, _) => None,
    }
}
