// What the whole-file check takes of each field: what is remembered of it, what is made of that, and the laws of both. The readers are in the crates above.
#![tactic(auto)]

ghost use Rattle.std.specs.Prelude.{◌≡◌};
ghost use Rattle.field_checks.specs.Check.{concluded};
ghost use Rattle.field_readers.specs.Remembered.{text_of};
ghost use Rattle.field_readers.specs.Flags.{flag_set};

use base::Refusal;
use field_checks::Conclusion;

// What is remembered of the fields seen, beside the arrays: where the pool's data starts and ends and how many strings it holds; how many
// zones there were; where the bytes of the version text start, 0 where there was none, and how many they are. Every field here and in a cursor is as wide as a place, since
// padding makes each copy slow.
#[derive(Clone, Copy)]
pub struct Kept {
    pub start: usize,
    pub end: usize,
    pub count: usize,
    pub zones: usize,
    pub text: usize,
    pub len: usize,
}

// Sets the flag of a zone, whose ID has a number of the pool, where its data are not in their preferred form and there is a flag for it.
pub fn set_flag(flags: &mut [u8], id: usize, preferred: bool) -> bool
    ensures { flags.new ≡ flag_set id preferred flags.old }
{
    if preferred {
        return false;
    }
    if flags.len() <= id {
        return false;
    }
    flags[id] = 1;
    true
}

// The bytes end at the place at, behind whole fields or the version.
pub fn conclude(at: usize, k: Kept) -> Conclusion
    ensures { result ≡ concluded (text_of k) at }
{
    if at == 4 {
        return Conclusion::Refused(Refusal::FirstField, at);
    }
    if k.text != 0 {
        return Conclusion::WithText(k.text, k.len);
    }
    Conclusion::Bare(at)
}
