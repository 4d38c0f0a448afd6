// The strings of a pool by number, through its index, and texts that lie in the pool or in a field.
#![tactic(auto)]

ghost use Rattle.std.specs.Prelude.{◌≡◌, [], max, ◌<◌, length, get_or, eqb};
ghost use Rattle.base.specs.Pick.{pick};
ghost use Rattle.pool.specs.Pool.{strings_of};
ghost use Rattle.pool.specs.Index.{Ready, span_of};
ghost use Rattle.base.specs.Equal.{equal};
ghost use Rattle.strings.specs.Holder.{part_at, text_of};

use pool::Span;

// Where the k-th string lies, by the index. It has at most 1,024 bytes, so its length takes one byte or two.
pub fn span_by(d: &[u8], starts: &[u32], k: usize) -> Span
    requires { Ready d.now starts.now × (k < length (strings_of d.now)) }
    ensures { result ≡ span_of d.now k }
{
    let p = starts[k] as usize;
    let b = d[p] as usize;
    if b < 128 {
        return Span { at: p + 1, len: b };
    }
    Span {
        at: p + 2,
        len: b % 128 + 128 * d[p + 1] as usize,
    }
}

// The k-th string, by the index.
pub fn text_by<'a>(d: &'a [u8], starts: &[u32], k: usize) -> &'a [u8]
    requires { Ready d.now starts.now × (k < length (strings_of d.now)) }
    ensures { result.now ≡ get_or (strings_of d.now) k [] }
{
    let s = span_by(d, starts, k);
    let a = s.at;
    let e = a + s.len;
    &d[a..e]
}

// Which slice holds a text, the pool's or the field's: the place of its first byte there, and how many bytes it has.
#[derive(Clone, Copy)]
pub enum Holder {
    InPool(usize, usize),
    InField(usize, usize),
}

// n bytes of s from the place a on; none where they are not all there.
fn part_at<'a>(s: &'a [u8], a: usize, n: usize) -> &'a [u8]
    ensures { result.now ≡ part_at s.now a n }
{
    if s.len() < a {
        return &s[0..0];
    }
    if s.len() - a < n {
        return &s[0..0];
    }
    let e = a + n;
    &s[a..e]
}

// A text, as a part of whichever slice holds it; the empty part where it is not there.
pub fn text_of<'a>(pool: &'a [u8], field: &'a [u8], h: Holder) -> &'a [u8]
    ensures { result.now ≡ text_of pool.now field.now h }
{
    match h {
        Holder::InPool(a, n) => part_at(pool, a, n),
        Holder::InField(a, n) => part_at(field, a, n),
    }
}

// 255 where two bytes differ, else 0.
fn differ(a: u8, b: u8) -> u8
    ensures { result ≡ pick (eqb a b) 0 255 }
{
    if a == b { 0 } else { 255 }
}

fn larger(a: u8, b: u8) -> u8
    ensures { result ≡ max a b }
{
    if a < b { b } else { a }
}

// Whether two strings have the same bytes. The loop has no early exit, so that it compiles to wide operations.
pub fn same(a: &[u8], b: &[u8]) -> bool
    ensures { result ≡ equal a.now b.now }
{
    if a.len() != b.len() {
        return false;
    }
    let mut m: u8 = 0;
    let mut i: usize = 0;
    while i < a.len() {
        m = larger(m, differ(a[i], b[i]));
        i += 1;
    }
    m == 0
}

// The same of two strings of one length, by blocks of 64 bytes up to the first that differs.
fn same_by_blocks(a: &[u8], b: &[u8]) -> bool
    requires { length a.now ≡ length b.now }
    ensures { result ≡ equal a.now b.now }
{
    let mut i: usize = 0;
    while 64 <= a.len() - i {
        let e = i + 64;
        if !same(&a[i..e], &b[i..e]) {
            return false;
        }
        i = e;
    }
    same(&a[i..], &b[i..])
}

// Whether the k-th string is id. Names of one length mostly differ in their last byte, which is looked at first.
pub fn has_id(d: &[u8], starts: &[u32], k: usize, id: &[u8]) -> bool
    requires { Ready d.now starts.now × (k < length (strings_of d.now)) }
    ensures { result ≡ equal (get_or (strings_of d.now) k []) id.now }
{
    let t = text_by(d, starts, k);
    let n = t.len();
    if n != id.len() {
        return false;
    }
    if 0 < n {
        if t[n - 1] != id[n - 1] {
            return false;
        }
    }
    same_by_blocks(t, id)
}
