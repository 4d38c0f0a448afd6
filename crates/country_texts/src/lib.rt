// The view of a location's countries: their texts by the view's numbers.
#![tactic(auto)]

ghost use Rattle.std.specs.Prelude.{◌≡◌};
ghost use Rattle.location_lookup.specs.Country.{pair_of, next_of};

use location_lookup::Pair;
use pool::Span;

// A country's texts, of the pool that the file has.
fn texts_of(s: &[u8], name: u64, code: u64, at: usize, left: usize) -> Pair
    ensures { result ≡ pair_of s.now name code at left }
{
    match field_search::find_field(s, 0) {
        None => Pair {
            name: Span { at: 0, len: 0 },
            code: Span { at: 0, len: 0 },
            at: at,
            left: left,
        },
        Some((_, b, c)) => Pair {
            name: location_lookup::text_in(s, b, c, name),
            code: location_lookup::text_in(s, b, c, code),
            at: at,
            left: left,
        },
    }
}

// The next country of a view, by its numbers, whatever they are: each once, in file order, then no more.
pub fn next_country(s: &[u8], start: usize, end: usize, at: usize, left: usize) -> Option<Pair>
    ensures { result ≡ next_of s.now start end at left }
{
    let x = countries::next_in(location_lookup::lent(s, start, end), at, left);
    let item = x.item;
    match item {
        None => None,
        Some((name, code)) => Some(texts_of(s, name, code, x.at, x.left)),
    }
}
