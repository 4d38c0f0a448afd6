// What the C functions have of their own for older dictionaries: the length of one that was written.
#![tactic(auto)]

ghost use Rattle.std.specs.Prelude.{◌≡◌};
ghost use Rattle.old_replies.specs.Functions.{number_of, length_left};

use base::Refusal;

// The length of what was written.
pub fn give_length(w: Result<usize, Refusal>, length: &mut [u64; 1]) -> u64
    ensures { (result ≡ number_of w) × (length.new ≡ length_left w length.old) }
{
    match w {
        Ok(n) => {
            *length = [n as u64];
            0
        }
        Err(k) => k.number() as u64,
    }
}
