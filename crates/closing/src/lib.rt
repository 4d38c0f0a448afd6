// Closing up the pool of a whole file: the file is checked, its mentions are counted and ordered, then its fields are written one behind the
// other.
#![tactic(auto)]

ghost use Rattle.std.specs.Prelude.{◌≡◌, ◌<◌};
ghost use Rattle.base.specs.All.{All};
ghost use Rattle.frames.specs.Fields.{fields};
ghost use Rattle.closed_files.specs.File.{mentions_in, uses_of, closed_file, first_unread, given_sized, left_sized, given_read, left_read, close_of, output_of};
ghost use Rattle.closed_walks.specs.View.{Walkable};

use base::{Fault, Refusal};
use unchanged_files::Walked;

// Closes up the pool of a file whose uses are counted. Where its order is the pool's own, no mention is written anew.
fn close_counted(s: &[u8], uses: &[u32], out: &mut [u8]) -> Result<usize, Fault>
    requires { Walkable s.now × All (λ k. k < 8192) (mentions_in (fields s.now)) × (uses.now ≡ uses_of (fields s.now)) }
    ensures { (result ≡ given_sized (closed_file (fields s.now)) out.old) × (out.new ≡ left_sized (closed_file (fields s.now)) out.old) }
{
    let mut order = [0u64; 8192];
    let mut room = [0u64; 8192];
    let mut table = [0u32; 8192];
    let mut sizes = [0u32; 8192];
    let n = ordered_uses::ordered(uses, &mut order, &mut room);
    ordered_uses::number(&order[..n], &mut table);
    let kept = closed_walks::in_place(&order[..n]);
    let size = closed_walks::total(s, &order[..n], &table, kept, &mut sizes);
    if 4194304 < size {
        return Err((Refusal::TooLarge, 0));
    }
    if out.len() < size {
        return Err((Refusal::TooShort, 0));
    }
    Ok(closed_walks::write_file(s, &order[..n], &table, kept, &sizes, out))
}

// Closes up the pool of a file that is good. One that is closed up already is copied.
fn close_good(s: &[u8], out: &mut [u8]) -> Result<usize, Fault>
    requires { Walkable s.now × All (λ k. k < 8192) (mentions_in (fields s.now)) }
    ensures { (result ≡ given_read (first_unread (fields s.now)) (closed_file (fields s.now)) out.old) × (out.new ≡ left_read (first_unread (fields s.now)) (closed_file (fields s.now)) out.old) }
{
    let mut uses = [0u32; 8192];
    let strings = unchanged_files::first_strings(s);
    match unchanged_files::count_mentions(s, strings, &mut uses) {
        Walked::Unread(p) => Err((Refusal::UnreadField, p)),
        Walked::Counted(plain) => {
            if unchanged_files::is_closed(plain, &uses, strings) {
                if out.len() < s.len() {
                    return Err((Refusal::TooShort, 0));
                }
                return Ok(copies::copy(s, out));
            }
            close_counted(s, &uses, out)
        }
    }
}

// Closes up the pool of a whole file into the front of the output, all checked first. Gives the length of the closed file; where it is refused, nothing is written.
pub fn close_pool(s: &[u8], out: &mut [u8]) -> Result<usize, Fault>
    ensures { (result ≡ close_of s.now out.old) × (out.new ≡ output_of s.now out.old) }
{
    checks::check(s)?;
    close_good(s, out)
}
