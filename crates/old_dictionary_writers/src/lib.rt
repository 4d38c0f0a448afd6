// An older dictionary, written.
#![tactic(auto)]

ghost use Rattle.std.specs.Prelude.{◌++◌, ◌≤◌};
ghost use Rattle.base.specs.Writing.{bytes, Writes};
ghost use Rattle.old_counts.specs.OldCount.{write_old_count};
ghost use Rattle.old_dictionaries.specs.OldDictionary.{old_dictionary_form};

use base::Refusal;

// Writes a count and the bytes t behind it, once all of them are known to have room.
fn write_counted(n: u64, t: &[u8], out: &mut [u8]) -> Result<usize, Refusal>
    requires { n ≤ 2147483647 }
    ensures { Writes (bytes (write_old_count n ++ t.now)) out.old result out.new }
{
    let a = old_count_writers::count_size(n);
    if out.len() < a {
        return Err(Refusal::TooShort);
    }
    if out.len() - a < t.len() {
        return Err(Refusal::TooShort);
    }
    // The room is known, so this refuses nothing.
    let _ = old_count_writers::write_count(n, out);
    slices::copy(t, &mut out[a..]);
    Ok(a + t.len())
}

// Writes the dictionary of the n pairs at the front of `pairs`, each string a count and its bytes, to the front of `out`.
pub fn write_dictionary(n: u64, pairs: &[u8], out: &mut [u8]) -> Result<usize, Refusal>
    ensures { Writes (old_dictionary_form n pairs.now) out.old result out.new }
{
    if 2147483647 < n {
        return Err(Refusal::BadCode);
    }
    match old_entries::read_entries(pairs, 0, n) {
        Err(k) => Err(k),
        Ok((_, e)) => write_counted(n, &pairs[0..e], out),
    }
}
