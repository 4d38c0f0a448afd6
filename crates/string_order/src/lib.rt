// The order of byte strings.
#![tactic(auto)]

ghost use Rattle.std.specs.Prelude.{◌≡◌, [], ◌∷◌, ◌≤◌, ◌+◌, ◌*◌, ◌<◌, min, length, drop};
ghost use Rattle.string_order.specs.Order.{ordering};

use std::cmp::Ordering;

// The number of four bytes, high first.
fn four(a: u8, b: u8, c: u8, d: u8) -> usize
    ensures { result ≡ a * 16777216 + b * 65536 + c * 256 + d }
{
    a as usize * 16777216 + b as usize * 65536 + c as usize * 256 + d as usize
}

// The order of four bytes and four others.
fn compare_four(a: u8, b: u8, c: u8, d: u8, p: u8, q: u8, r: u8, s: u8) -> Ordering
    ensures { result ≡ ordering (a ∷ b ∷ c ∷ d ∷ []) (p ∷ q ∷ r ∷ s ∷ []) }
{
    let x = four(a, b, c, d);
    let y = four(p, q, r, s);
    if x == y {
        return Ordering::Equal;
    }
    if x < y {
        return Ordering::Less;
    }
    Ordering::Greater
}

fn smaller(a: usize, b: usize) -> usize
    ensures { result ≡ min a b }
{
    if a < b { a } else { b }
}

// Up to which place both are the same from a place on, by blocks of a size: there may be more in the block at which it ends. n bytes are in both.
fn same_blocks(a: &[u8], b: &[u8], from: usize, size: usize, n: usize) -> usize
    requires { (n ≡ min (length a.now) (length b.now)) × (from ≤ n) × (0 < size) }
    ensures { (result ≤ n) × (ordering (drop result a.now) (drop result b.now) ≡ ordering (drop from a.now) (drop from b.now)) }
{
    let mut i = from;
    while size <= n - i {
        let e = i + size;
        if !strings::same(&a[i..e], &b[i..e]) {
            return i;
        }
        i = e;
    }
    i
}

// How many bytes at the front of both are the same, by blocks of 64, and behind these by blocks of 16. Short strings, as most are, have no such
// front and take one test.
fn same_front(a: &[u8], b: &[u8], n: usize) -> usize
    requires { n ≡ min (length a.now) (length b.now) }
    ensures { (result ≤ n) × (ordering (drop result a.now) (drop result b.now) ≡ ordering a.now b.now) }
{
    let i = same_blocks(a, b, 0, 64, n);
    if i == 0 {
        return 0;
    }
    same_blocks(a, b, i, 16, n)
}

// The order of what stands from a place on, a byte at a time. n bytes are in both.
fn compare_bytes(a: &[u8], b: &[u8], from: usize, n: usize) -> Ordering
    requires { (n ≡ min (length a.now) (length b.now)) × (from ≤ n) }
    ensures { result ≡ ordering (drop from a.now) (drop from b.now) }
{
    let mut i = from;
    while i < n {
        if a[i] < b[i] {
            return Ordering::Less;
        }
        if b[i] < a[i] {
            return Ordering::Greater;
        }
        i += 1;
    }
    if n < b.len() {
        return Ordering::Less;
    }
    if n < a.len() {
        return Ordering::Greater;
    }
    Ordering::Equal
}

// The same, four bytes at a time as long as there are four.
fn compare_fours(a: &[u8], b: &[u8], from: usize, n: usize) -> Ordering
    requires { (n ≡ min (length a.now) (length b.now)) × (from ≤ n) }
    ensures { result ≡ ordering (drop from a.now) (drop from b.now) }
{
    let mut i = from;
    while 4 <= n - i {
        let o = compare_four(
            a[i],
            a[i + 1],
            a[i + 2],
            a[i + 3],
            b[i],
            b[i + 1],
            b[i + 2],
            b[i + 3],
        );
        match o {
            Ordering::Less => {
                return Ordering::Less;
            }
            Ordering::Greater => {
                return Ordering::Greater;
            }
            Ordering::Equal => {
                i += 4;
            }
        }
    }
    compare_bytes(a, b, i, n)
}

// The order of two strings.
pub fn compare(a: &[u8], b: &[u8]) -> Ordering
    ensures { result ≡ ordering a.now b.now }
{
    let n = smaller(a.len(), b.len());
    compare_fours(a, b, same_front(a, b, n), n)
}
