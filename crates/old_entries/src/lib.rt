// The entries of an older dictionary, whose keys mostly stand in the order of their bytes.
#![tactic(auto)]

ghost use Rattle.std.specs.Prelude.{◌≡◌, [], ◌≤◌, length, drop};
ghost use Rattle.string_order.specs.Order.{ordering};
ghost use Rattle.old_dictionaries.specs.OldDictionary.{parse_entries, found_of, read_old_dictionary};
ghost use Rattle.old_dictionaries.specs.View.{is_less, ValueAt, Keyed, Turned};

use base::Coded;
use old_dictionaries::Turn;
use std::cmp::Ordering;

// Whether a comes before b in the order of strings.
fn comes_before(a: &[u8], b: &[u8]) -> bool
    ensures { result ≡ is_less (ordering a.now b.now) }
{
    match string_order::compare(a, b) {
        Ordering::Less => true,
        Ordering::Equal => false,
        Ordering::Greater => false,
    }
}

// The value behind a new key, at a place of s; the largest key so far is s[lo..hi].
fn take_value(s: &[u8], at: usize, lo: usize, hi: usize) -> Turn
    requires { at ≤ length s.now }
    ensures { ValueAt s.now at lo hi result }
{
    match old_texts::read_text(&s[at..]) {
        Err(k) => Turn::Bad(k),
        Ok((v, l)) => Turn::Next(at + v + l, lo, hi),
    }
}

// The entry with the key s[b..c], behind others, the largest of whose keys is s[lo..hi]. A larger key, as each is where they are in order, is
// new; any other is not judged here.
fn take_key(s: &[u8], lo: usize, hi: usize, b: usize, c: usize) -> Turn
    requires { (lo ≤ hi) × (hi ≤ length s.now) × (b ≤ c) × (c ≤ length s.now) }
    ensures { Keyed s.now lo hi b c result }
{
    if comes_before(&s[lo..hi], &s[b..c]) {
        return take_value(s, c, b, c);
    }
    Turn::Unordered
}

// The entry at a place of s, behind others, the largest of whose keys is s[lo..hi].
fn take_entry(s: &[u8], lo: usize, hi: usize, at: usize) -> Turn
    requires { (lo ≤ hi) × (hi ≤ length s.now) × (at ≤ length s.now) }
    ensures { Turned s.now lo hi at result }
{
    match old_texts::read_text(&s[at..]) {
        Err(k) => Turn::Bad(k),
        Ok((a, m)) => {
            let b = at + a;
            take_key(s, lo, hi, b, b + m)
        }
    }
}

// n entries of s from a place on. At the first key that is not larger than all before it they are read anew, by a reader that remembers the
// keys.
pub fn read_entries(s: &[u8], from: usize, n: u64) -> Coded<u64>
    requires { from ≤ length s.now }
    ensures { result ≡ found_of s.now (parse_entries n [] (drop from s.now)) }
{
    let mut at = from;
    let mut done: u64 = 0;
    let mut lo: usize = 0;
    let mut hi: usize = 0;
    while done < n {
        match take_entry(s, lo, hi, at) {
            Turn::Bad(k) => {
                return Err(k);
            }
            Turn::Unordered => {
                return unordered_keys::read_entries(s, from, n);
            }
            Turn::Next(e, b, c) => {
                at = e;
                lo = b;
                hi = c;
                done += 1;
            }
        }
    }
    Ok((n, at))
}

// The dictionary at the front of s: how many entries it has, and its length.
pub fn read_dictionary(s: &[u8]) -> Coded<u64>
    ensures { result ≡ read_old_dictionary s.now }
{
    let (n, a) = old_count_readers::read_count(s)?;
    read_entries(s, a, n)
}
