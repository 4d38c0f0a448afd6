// The older edition's string: a length and that many bytes of UTF-8.
#![tactic(auto)]

ghost use Rattle.std.specs.Prelude.{◌≡◌, ◌≤◌, length};
ghost use Rattle.base.specs.Writing.{bytes, Writes};
ghost use Rattle.old_texts.specs.OldText.{read_old_text, write_old_text, old_text_form};

use base::Refusal;

// The string at the front of s.
pub fn read_text(s: &[u8]) -> Result<(usize, usize), Refusal>
    ensures { result ≡ read_old_text s.now }
{
    let (n, a) = old_count_readers::read_count(s)?;
    texts::text_behind(s, a, n as usize, 0)
}

// Writes a length and the bytes of t, once all of them are known to have room.
pub fn write_sized(t: &[u8], out: &mut [u8]) -> Result<usize, Refusal>
    requires { length t.now ≤ 1024 }
    ensures { Writes (bytes (write_old_text t.now)) out.old result out.new }
{
    let n = t.len();
    let a = old_count_writers::count_size(n as u64);
    if out.len() < a + n {
        return Err(Refusal::TooShort);
    }
    // the room is known
    let _ = old_count_writers::write_count(n as u64, out);
    slices::copy(t, &mut out[a..]);
    Ok(a + n)
}

// Writes t as a string to the front of out.
pub fn write_text(t: &[u8], out: &mut [u8]) -> Result<usize, Refusal>
    ensures { Writes (old_text_form t.now) out.old result out.new }
{
    if 1024 < t.len() {
        return Err(Refusal::TooLarge);
    }
    if utf8::is_utf8(t) {
        return write_sized(t, out);
    }
    Err(Refusal::BadText)
}
