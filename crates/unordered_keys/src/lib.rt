// The entries of an older dictionary whose keys don't stand in the order of their bytes. Where the first keys lie is remembered, up to 8,192, and
// their numbers in the order of the keys.
#![tactic(auto)]

ghost use Rattle.std.specs.Prelude.{◌≡◌, [], ◌+◌, ◌-◌, ◌≤◌, ◌<◌, length, get_or, drop};
ghost use Rattle.ids.specs.Layout.{buffer_size, low_of, high_of};
ghost use Rattle.ids.specs.Parts.{Run, Located};
ghost use Rattle.ids.specs.Memory.{Finds};
ghost use Rattle.old_dictionaries.specs.OldDictionary.{parse_entries, found_of};
ghost use Rattle.old_dictionaries.specs.View.{part};
ghost use Rattle.unordered_keys.specs.Keys.{keys_in, limit_of, Inside, Held, KeyTaken, Remembers, Judged, Stepped, Arrays};

use base::{Coded, Refusal};
use ids::{Gap, Place};
use std::cmp::Ordering;

// The key with the number k.
fn key_by<'a>(s: &'a [u8], starts: &[u32], ends: &[u32], k: usize) -> &'a [u8]
    requires { (k < length starts.now) × (k < length ends.now) × (get_or starts.now k 0 ≤ get_or ends.now k 0) × (get_or ends.now k 0 ≤ length s.now) }
    ensures { result.now ≡ part (get_or starts.now k 0) (get_or ends.now k 0) s.now }
{
    let a = starts[k] as usize;
    let e = ends[k] as usize;
    &s[a..e]
}

// Looks for x among those of n keys whose numbers stand from a place on up to another. The last is compared first.
fn find(
    s: &[u8],
    starts: &[u32],
    ends: &[u32],
    n: usize,
    order: &[u16],
    from: usize,
    to: usize,
    x: &[u8],
) -> Place
    requires { Inside s.now starts.now ends.now n × Run (keys_in s.now starts.now ends.now n) order.now from to }
    ensures { Located (keys_in s.now starts.now ends.now n) order.now from to x.now result }
{
    let mut lo = from;
    let mut hi = to;
    let mut back: usize = 1;
    while lo < hi {
        let mid = hi - back;
        let j = order[mid] as usize;
        let o = string_order::compare(key_by(s, starts, ends, j), x);
        match o {
            Ordering::Equal => {
                return Place::Seen(j);
            }
            Ordering::Less => {
                lo = mid + 1;
                back = (hi - lo + 1) / 2;
            }
            Ordering::Greater => {
                hi = mid;
                back = (hi - lo + 1) / 2;
            }
        }
    }
    Place::Free(lo)
}

// Looks for x among the keys of the main list between two of the buffer.
fn find_between(
    s: &[u8],
    starts: &[u32],
    ends: &[u32],
    n: usize,
    order: &[u16],
    j: usize,
    x: &[u8],
) -> Place
    requires { Held s.now starts.now ends.now n order.now × (j ≤ buffer_size order.now) }
    ensures { Located (keys_in s.now starts.now ends.now n) order.now (257 + low_of order.now j) (257 + high_of order.now (n - buffer_size order.now) (buffer_size order.now) j) x.now result }
{
    let b = order[256] as usize;
    let lo = 257 + ids::low(order, j);
    let hi = 257 + ids::high(order, n - b, b, j);
    find(s, starts, ends, n, order, lo, hi, x)
}

// Looks for x among the n keys.
fn find_gap(s: &[u8], starts: &[u32], ends: &[u32], n: usize, order: &[u16], x: &[u8]) -> Gap
    requires { Held s.now starts.now ends.now n order.now }
    ensures { Finds (keys_in s.now starts.now ends.now n) order.now n x.now result }
{
    let b = order[256] as usize;
    let p = find(s, starts, ends, n, order, 0, b, x);
    match p {
        Place::Seen(k) => Gap::Known(k),
        Place::Free(q) => {
            let g = find_between(s, starts, ends, n, order, q, x);
            match g {
                Place::Seen(k) => Gap::Known(k),
                Place::Free(i) => Gap::New(i - 257, q),
            }
        }
    }
}

// Whether s[b..c] is one of the n keys; if not, it is put among them.
fn take_key(
    s: &[u8],
    starts: &mut [u32],
    ends: &mut [u32],
    n: usize,
    order: &mut [u16],
    b: usize,
    c: usize,
) -> bool
    requires { Held s.now starts.old ends.old n order.old × (n < limit_of s.now (length starts.old)) × (b ≤ c) × (c ≤ length s.now) }
    ensures { KeyTaken s.now starts.old ends.old n order.old (part b c s.now) starts.new ends.new order.new result }
{
    let g = find_gap(s, &*starts, &*ends, n, &*order, &s[b..c]);
    match g {
        Gap::Known(_) => true,
        Gap::New(i, j) => {
            ids::put(order, n, i, j, n as u16);
            starts[n] = b as u32;
            ends[n] = c as u32;
            false
        }
    }
}

// How many keys are remembered in arrays of `room` places: as many, and none where a place may not fit in 32 bits.
fn limit(s: &[u8], room: usize) -> u64
    ensures { result ≡ limit_of s.now room }
{
    if 4294967295 < s.len() {
        return 0;
    }
    room as u64
}

// Whether s[b..c] is the key of one of n entries, which start at a place. For a key that is behind those remembered the entries are gone
// through.
fn is_second(
    s: &[u8],
    from: usize,
    n: u64,
    b: usize,
    c: usize,
    starts: &mut [u32],
    ends: &mut [u32],
    order: &mut [u16],
) -> bool
    requires { (from ≤ length s.now) × (b ≤ c) × (c ≤ length s.now) × Arrays s.now starts.old ends.old n order.old }
    ensures { Judged s.now from n starts.old ends.old order.old (part b c s.now) starts.new ends.new order.new result }
{
    if n < limit(s, starts.len()) {
        return take_key(s, starts, ends, n as usize, order, b, c);
    }
    old_pairs::has_key(s, from, n, &s[b..c])
}

// The place behind the entry at a place of s, behind n others, which start at another place.
fn take_entry(
    s: &[u8],
    from: usize,
    n: u64,
    at: usize,
    starts: &mut [u32],
    ends: &mut [u32],
    order: &mut [u16],
) -> Result<usize, Refusal>
    requires { (from ≤ length s.now) × (at ≤ length s.now) × Arrays s.now starts.old ends.old n order.old }
    ensures { Stepped s.now from n at starts.old ends.old order.old starts.new ends.new order.new result }
{
    match old_texts::read_text(&s[at..]) {
        Err(k) => Err(k),
        Ok((a, m)) => {
            let b = at + a;
            let c = b + m;
            if is_second(s, from, n, b, c, starts, ends, order) {
                return Err(Refusal::SecondAlias);
            }
            match old_texts::read_text(&s[c..]) {
                Err(k) => Err(k),
                Ok((v, l)) => Ok(c + v + l),
            }
        }
    }
}

// n entries of s from a place on; the arrays remember none yet.
fn read_all(
    s: &[u8],
    from: usize,
    n: u64,
    starts: &mut [u32],
    ends: &mut [u32],
    order: &mut [u16],
) -> Coded<u64>
    requires { (from ≤ length s.now) × Remembers s.now starts.old ends.old 0 order.old [] }
    ensures { result ≡ found_of s.now (parse_entries n [] (drop from s.now)) }
{
    let mut at = from;
    let mut done: u64 = 0;
    while done < n {
        let t = take_entry(s, from, done, at, &mut *starts, &mut *ends, &mut *order);
        match t {
            Err(k) => {
                return Err(k);
            }
            Ok(e) => {
                at = e;
                done += 1;
            }
        }
    }
    Ok((n, at))
}

// The same with arrays of its own, for few entries: short arrays are cleared at once.
fn read_few(s: &[u8], from: usize, n: u64) -> Coded<u64>
    requires { from ≤ length s.now }
    ensures { result ≡ found_of s.now (parse_entries n [] (drop from s.now)) }
{
    let mut starts = [0u32; 1024];
    let mut ends = [0u32; 1024];
    let mut order = [0u16; 1281];
    read_all(s, from, n, &mut starts, &mut ends, &mut order)
}

// The same for many.
fn read_many(s: &[u8], from: usize, n: u64) -> Coded<u64>
    requires { from ≤ length s.now }
    ensures { result ≡ found_of s.now (parse_entries n [] (drop from s.now)) }
{
    let mut starts = [0u32; 8192];
    let mut ends = [0u32; 8192];
    let mut order = [0u16; 8449];
    read_all(s, from, n, &mut starts, &mut ends, &mut order)
}

// n entries of s from a place on.
pub fn read_entries(s: &[u8], from: usize, n: u64) -> Coded<u64>
    requires { from ≤ length s.now }
    ensures { result ≡ found_of s.now (parse_entries n [] (drop from s.now)) }
{
    if n <= 1024 {
        return read_few(s, from, n);
    }
    read_many(s, from, n)
}
