// A string of a pool by its number, without an index: the strings before it are stepped over by their lengths.
#![tactic(auto)]

ghost use Rattle.std.specs.Prelude.{◌≡◌, ◌≤◌, length, drop};
ghost use Rattle.places.specs.Placed.{Stands, of_read};
ghost use Rattle.string_search.specs.Search.{parse_string, nth_string, string_span};

use base::{Coded, Refusal};
use pool::Span;

// How many bytes the string at a place has, and the place of the first.
fn string_at(d: &[u8], at: usize) -> Coded<u64>
    requires { at ≤ length d.now }
    ensures { Stands d.now (parse_string (drop at d.now)) (of_read result) }
{
    let (n, a) = places::count_at(d, at)?;
    if ((d.len() - a) as u64) < n {
        return Err(Refusal::BadData);
    }
    Ok((n, a))
}

// The same for the k-th string from a place on.
fn nth_string(d: &[u8], from: usize, k: u64) -> Coded<u64>
    requires { from ≤ length d.now }
    ensures { Stands d.now (nth_string k (drop from d.now)) (of_read result) }
{
    let mut at = from;
    let mut left = k;
    while 0 < left {
        let t = string_at(d, at);
        match t {
            Err(m) => {
                return Err(m);
            }
            Ok((n, a)) => {
                at = a + n as usize;
                left -= 1;
            }
        }
    }
    string_at(d, at)
}

// Where the string with the number k lies in the pool's data d; no bytes at 0 where it is not there.
pub fn find_string(d: &[u8], k: u64) -> Span
    ensures { result ≡ string_span d.now k }
{
    match places::count_at(d, 0) {
        Err(_) => Span { at: 0, len: 0 },
        Ok((n, a)) => {
            if n <= k {
                return Span { at: 0, len: 0 };
            }
            match nth_string(d, a, k) {
                Err(_) => Span { at: 0, len: 0 },
                Ok((m, p)) => Span {
                    at: p,
                    len: m as usize,
                },
            }
        }
    }
}
