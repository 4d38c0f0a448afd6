// Texts: a length and that many bytes of UTF-8.
#![tactic(auto)]

ghost use Rattle.std.specs.Prelude.{◌≡◌, ◌+◌, ◌≤◌, ◌<◌, length, take, true, Ok};
ghost use Rattle.base.specs.Writing.{bytes, Writes};
ghost use Rattle.utf8.specs.Utf8.{utf8};
ghost use Rattle.utf8.specs.Ascii.{ascii};
ghost use Rattle.texts.specs.Text.{text_sized, read_text, text_bytes, write_text, text_form};

use base::Refusal;

// Place and length of the text of n bytes behind the a bytes of its length at the front of s, of which the first `plain` bytes are known to be ASCII: what lies
// in them is not looked at again.
pub fn text_behind(s: &[u8], a: usize, n: usize, plain: usize) -> Result<(usize, usize), Refusal>
    requires { (a ≤ length s.now) × (ascii (take plain s.now) ≡ true) }
    ensures { result ≡ text_sized s.now (Ok (n, a)) }
{
    if 1024 < n {
        return Err(Refusal::TooLarge);
    }
    if s.len() - a < n {
        return Err(Refusal::BadData);
    }
    let e = a + n;
    if e <= plain {
        return Ok((a, n));
    }
    if utf8::is_utf8(&s[a..e]) {
        return Ok((a, n));
    }
    Err(Refusal::BadText)
}

// Place and length of the text at the front of s, of which the first `plain` bytes are known to be ASCII.
pub fn read_text_in(s: &[u8], plain: usize) -> Result<(usize, usize), Refusal>
    requires { ascii (take plain s.now) ≡ true }
    ensures { result ≡ read_text s.now }
{
    let (n, a) = count_readers::read_count(s)?;
    text_behind(s, a, n as usize, plain)
}

// Place and length of the text at the front of s.
pub fn read_text(s: &[u8]) -> Result<(usize, usize), Refusal>
    ensures { result ≡ read_text s.now }
{
    read_text_in(s, 0)
}

// The bytes of the text at the front of s, as a part of s: none where it is refused.
pub fn text_bytes<'a>(s: &'a [u8]) -> &'a [u8]
    ensures { result.now ≡ text_bytes s.now }
{
    let t = read_text(s);
    match t {
        Err(_) => &s[0..0],
        Ok((a, n)) => {
            let e = a + n;
            &s[a..e]
        }
    }
}

// Writes a length and the bytes of t, once all of them are known to have room.
fn write_sized(t: &[u8], out: &mut [u8]) -> Result<usize, Refusal>
    requires { length t.now ≤ 1024 }
    ensures { Writes (bytes (write_text t.now)) out.old result out.new }
{
    let n = t.len();
    let a = count_writers::count_size(n as u64);
    if out.len() < a + n {
        return Err(Refusal::TooShort);
    }
    // the room is known
    let _ = count_writers::write_count(n as u64, out);
    slices::copy(t, &mut out[a..]);
    Ok(a + n)
}

// Writes t as a text to the front of out.
pub fn write_text(t: &[u8], out: &mut [u8]) -> Result<usize, Refusal>
    ensures { Writes (text_form t.now) out.old result out.new }
{
    if 1024 < t.len() {
        return Err(Refusal::TooLarge);
    }
    if utf8::is_utf8(t) {
        return write_sized(t, out);
    }
    Err(Refusal::BadText)
}
