// The version and the head of field 0 of a file.
#![tactic(auto)]

ghost use Rattle.std.specs.Prelude.{◌≡◌, ◌≤◌, length};
ghost use Rattle.frames.specs.declared.Frame.TheVariants.{Version};
ghost use Rattle.locate.specs.View.{version_frame, FirstOf};

use frames::Frame;
use locate::First;

// What stands behind the version.
fn read_pool(s: &[u8]) -> First
    requires { (4 ≤ length s.now) × (version_frame 1 s.now ≡ Version) }
    ensures { FirstOf s.now result }
{
    let at: usize = 4;
    match headers::read_frame(&s[at..], 1, at, false, 0) {
        Frame::End => First::End(at),
        Frame::Cut => First::Cut(at),
        Frame::Refused(n) => First::Refused(n, at),
        // The version stands at place 0 only.
        Frame::Version => First::Cut(at),
        Frame::Whole(_, h, n) => {
            let d = at + h;
            First::Pool(d, d + n)
        }
    }
}

// The version and the head of field 0. From its data a caller knows how many places the index that it lends to `walk` must have.
pub fn read_first(s: &[u8]) -> First
    ensures { FirstOf s.now result }
{
    match headers::read_frame(s, 1, 0, false, 0) {
        Frame::End => First::End(0),
        Frame::Cut => First::Cut(0),
        Frame::Refused(n) => First::Refused(n, 0),
        Frame::Version => read_pool(s),
        // No field stands at place 0.
        Frame::Whole(_, _, _) => First::Cut(0),
    }
}
