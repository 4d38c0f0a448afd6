// A location of a file, and the view of its countries: what their readers give, and the parts and texts that they share. The readers stand in
// location_fields, country_texts and file_locations.
#![tactic(auto)]

ghost use Rattle.std.specs.Prelude.{◌≡◌};
ghost use Rattle.location_lookup.specs.Location.{lent_part, text_in};

use pins::Pin;
use pool::Span;

// A location: its pin, the places and lengths of its zone ID and its comment in the lent bytes, and the view of its countries: where the
// field's data start and end, the place of the next country in them, and how many are left.
#[derive(Clone, Copy)]
pub struct Located {
    pub pin: Pin,
    pub zone: Span,
    pub comment: Span,
    pub start: usize,
    pub end: usize,
    pub at: usize,
    pub left: usize,
}

// The places and lengths of a country's name and code in the lent bytes, and where the view stands behind it.
#[derive(Clone, Copy)]
pub struct Pair {
    pub name: Span,
    pub code: Span,
    pub at: usize,
    pub left: usize,
}

// The bytes from a to e; none where they are not all there.
pub fn lent<'a>(s: &'a [u8], a: usize, e: usize) -> &'a [u8]
    ensures { result.now ≡ lent_part s.now a e }
{
    if s.len() < e {
        return &s[0..0];
    }
    if e < a {
        return &s[0..0];
    }
    &s[a..e]
}

// Where the string with the number k lies, of the pool whose data go from b to c.
pub fn text_in(s: &[u8], b: usize, c: usize, k: u64) -> Span
    ensures { result ≡ text_in s.now b c k }
{
    let d = lent(s, b, c);
    let x = string_search::find_string(d, k);
    let at = x.at;
    Span {
        at: b + at,
        len: x.len,
    }
}
