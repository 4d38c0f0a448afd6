// What the whole-file check and the version text give, and the bytes of that text.
#![tactic(auto)]

ghost use Rattle.std.specs.Prelude.{◌≡◌};
ghost use Rattle.field_checks.specs.VersionPart.{version_part};

use base::{Fault, Refusal};
use strings::Holder;

// What the walk over a file comes to.
#[derive(Clone, Copy)]
pub enum Conclusion {
    // A refusal and its place.
    Refused(Refusal, usize),
    // The file is well formed and has no field 2: where it ends.
    Bare(usize),
    // The file is well formed: where the bytes of its version text start, and how many they are.
    WithText(usize, usize),
}

// The version text, as a part of the file's bytes, which have field 2 in them; the empty part where it is refused.
pub fn text_part<'a>(s: &'a [u8], t: Result<(usize, usize), Fault>) -> &'a [u8]
    ensures { result.now ≡ version_part s.now t }
{
    match t {
        Ok((a, n)) => strings::text_of(s, s, Holder::InField(a, n)),
        Err(_) => &s[0..0],
    }
}
