// Normalizing a whole file. The file is checked, which also tells of each zone whether it is in its preferred form; then its preferred file is
// written.
#![tactic(auto)]

ghost use Rattle.std.specs.Prelude.{◌≡◌, []};
ghost use Rattle.rewrite.specs.Preferred.{rewrite_of, output_of};

use base::{Fault, Refusal};

// Checks a whole file for an output without room for any file: 15 where it is well formed.
fn check_only(s: &[u8]) -> Result<usize, Fault>
    ensures { result ≡ rewrite_of s.now [] }
{
    checks::check(s)?;
    Err((Refusal::TooShort, 0))
}

// Checks a whole file with lent flags, all 0, then writes its preferred form to the front of the output.
fn normalize_with(s: &[u8], flags: &mut [u8], out: &mut [u8]) -> Result<usize, Fault>
    ensures { (result ≡ rewrite_of s.now out.old) × (out.new ≡ output_of s.now out.old) }
{
    checks::check_flags(s, &mut *flags)?;
    if preferred_walks::has_room(s, &*flags, out.len()) {
        return Ok(preferred_walks::write_file(s, &*flags, out));
    }
    Err((Refusal::TooShort, 0))
}

// The same with flags of its own, for a pool of at most 256 strings.
fn normalize_short(s: &[u8], out: &mut [u8]) -> Result<usize, Fault>
    ensures { (result ≡ rewrite_of s.now out.old) × (out.new ≡ output_of s.now out.old) }
{
    let mut flags = [0u8; 256];
    normalize_with(s, &mut flags, out)
}

// The same for every pool.
fn normalize_long(s: &[u8], out: &mut [u8]) -> Result<usize, Fault>
    ensures { (result ≡ rewrite_of s.now out.old) × (out.new ≡ output_of s.now out.old) }
{
    let mut flags = [0u8; 8192];
    normalize_with(s, &mut flags, out)
}

// Checks a whole file, then writes its preferred form to the front of the output. Where there is no room for the version, no flags are asked for.
pub fn normalize(s: &[u8], out: &mut [u8]) -> Result<usize, Fault>
    ensures { (result ≡ rewrite_of s.now out.old) × (out.new ≡ output_of s.now out.old) }
{
    if out.len() < 4 {
        return check_only(s);
    }
    if check_steps::room(s) <= 256 {
        return normalize_short(s, out);
    }
    normalize_long(s, out)
}
