// The lines of answers and refusals.
#![tactic(auto)]

ghost use Rattle.std.specs.Prelude.{◌≡◌, ◌+◌, ◌≤◌, length};
ghost use Rattle.std.proofs.lemmas.List.Edits.{sets};
ghost use Rattle.base.specs.Writing.{bytes, Writes};
ghost use Rattle.answer_lines.specs.Decimal.{decimal, signed};
ghost use Rattle.answer_lines.specs.Reply.{answer_line, refusal_line};

use base::Refusal;

// The line of an answer.
pub fn write_answer(
    wall: i64,
    savings: i64,
    standard: i64,
    name: &[u8],
    out: &mut [u8],
) -> Result<usize, Refusal>
    ensures { Writes (bytes (answer_line wall savings standard name.now)) out.old result out.new }
{
    let room = 6
        + signed_length(wall)
        + signed_length(savings)
        + signed_length(standard)
        + name.len();
    if out.len() < room {
        return Err(Refusal::TooShort);
    }
    let a = put_decimal(0, out, 0);
    out[a] = b' ';
    let b = put_signed(wall, out, a + 1);
    out[b] = b' ';
    let c = put_signed(savings, out, b + 1);
    out[c] = b' ';
    let d = put_signed(standard, out, c + 1);
    out[d] = b' ';
    let e = put_bytes(name, out, d + 1);
    out[e] = b'\n';
    Ok(e + 1)
}

// The line of a refusal.
pub fn write_refusal(number: u8, place: u64, out: &mut [u8]) -> Result<usize, Refusal>
    ensures { Writes (bytes (refusal_line number place)) out.old result out.new }
{
    let room = 2 + decimal_length(number as u64) + decimal_length(place);
    if out.len() < room {
        return Err(Refusal::TooShort);
    }
    let a = put_decimal(number as u64, out, 0);
    out[a] = b' ';
    let b = put_decimal(place, out, a + 1);
    out[b] = b'\n';
    Ok(b + 1)
}

// How many digits v has.
fn decimal_length(v: u64) -> usize
    ensures { result ≡ length (decimal v) }
{
    let mut n = 1;
    let mut rest = v;
    while 10 <= rest {
        rest = rest / 10;
        n += 1;
    }
    n
}

// How many bytes z takes, its minus among them.
fn signed_length(z: i64) -> usize
    ensures { result ≡ length (signed z) }
{
    if z < 0 {
        return 1 + decimal_length(signed::magnitude(z));
    }
    decimal_length(signed::magnitude(z))
}

// Puts the digits of v into out from `at` on, and gives the place behind them.
fn put_decimal(v: u64, out: &mut [u8], at: usize) -> usize
    requires { at + length (decimal v) ≤ length out.old }
    ensures { (result ≡ at + length (decimal v)) × (out.new ≡ sets out.old at (decimal v)) }
{
    if v < 10 {
        out[at] = b'0' + v as u8;
        return at + 1;
    }
    let n = put_decimal(v / 10, out, at);
    out[n] = b'0' + (v % 10) as u8;
    n + 1
}

// The same for a number with its sign.
fn put_signed(z: i64, out: &mut [u8], at: usize) -> usize
    requires { at + length (signed z) ≤ length out.old }
    ensures { (result ≡ at + length (signed z)) × (out.new ≡ sets out.old at (signed z)) }
{
    if z < 0 {
        out[at] = b'-';
        return put_decimal(signed::magnitude(z), out, at + 1);
    }
    put_decimal(signed::magnitude(z), out, at)
}

// The same for the bytes of a slice.
fn put_bytes(s: &[u8], out: &mut [u8], at: usize) -> usize
    requires { at + length s.now ≤ length out.old }
    ensures { (result ≡ at + length s.now) × (out.new ≡ sets out.old at s.now) }
{
    at + slices::copy(s, &mut out[at..])
}
