// UTF-8, and its part that is ASCII.
#![tactic(auto)]

ghost use Rattle.std.specs.Prelude.{◌≡◌, true, ◌+◌, ◌≤◌, ◌<◌, length, take, drop, ltb, leb};
ghost use Rattle.base.specs.Pick.{pick, both};
ghost use Rattle.utf8.specs.Utf8.{lead as lead_of, chars, utf8, size_of};
ghost use Rattle.utf8.specs.Ascii.{ascii, ascii_front};

// What is due after a character's first byte: how many more bytes, and the range of the first of them; or it begins none.
fn lead(b: u8) -> Option<(u8, u8, u8)>
    ensures { result ≡ lead_of b }
{
    if b < 0x80 {
        return Some((0, 0x80, 0xbf));
    }
    if b < 0xc2 {
        return None;
    }
    if b < 0xe0 {
        return Some((1, 0x80, 0xbf));
    }
    if b == 0xe0 {
        return Some((2, 0xa0, 0xbf));
    }
    if b == 0xed {
        return Some((2, 0x80, 0x9f));
    }
    if b < 0xf0 {
        return Some((2, 0x80, 0xbf));
    }
    if b == 0xf0 {
        return Some((3, 0x90, 0xbf));
    }
    if b < 0xf4 {
        return Some((3, 0x80, 0xbf));
    }
    if b == 0xf4 {
        return Some((3, 0x80, 0x8f));
    }
    None
}

// Whether b is from lo to hi.
fn within(lo: u8, hi: u8, b: u8) -> bool
    ensures { result ≡ both (leb lo b) (leb b hi) }
{
    if b < lo {
        return false;
    }
    b <= hi
}

// Whether the n bytes from a place on end a character, the first of them from lo to hi.
fn ends(s: &[u8], at: usize, n: usize, lo: u8, hi: u8) -> bool
    requires { at + n ≤ length s.now }
    ensures { result ≡ chars n lo hi (take n (drop at s.now)) }
{
    let mut i: usize = 0;
    let mut l = lo;
    let mut h = hi;
    while i < n {
        if within(l, h, s[at + i]) {
            l = 0x80;
            h = 0xbf;
            i += 1;
        } else {
            return false;
        }
    }
    true
}

// How many bytes the character at a place has, 0 where none stands there.
fn size_at(s: &[u8], at: usize) -> usize
    requires { at < length s.now }
    ensures { result ≡ size_of (drop at s.now) }
{
    match lead(s[at]) {
        None => 0,
        Some((k, lo, hi)) => {
            let n = k as usize;
            if s.len() - at <= n {
                return 0;
            }
            if ends(s, at + 1, n, lo, hi) {
                return n + 1;
            }
            0
        }
    }
}

// Whether a, b and c are a character of three bytes, for all first bytes but E0 and ED, behind which not every byte may follow.
fn is_three(a: u8, b: u8, c: u8) -> bool
    ensures { result ≡ true → (0xe1 ≤ a) × (a ≤ 0xef) × (a ≡ 0xed → ⊥) × (0x80 ≤ b) × (b ≤ 0xbf) × (0x80 ≤ c) × (c ≤ 0xbf) }
{
    if a == 0xed {
        return false;
    }
    if a < 0xe1 {
        return false;
    }
    if 0xef < a {
        return false;
    }
    if b < 0x80 {
        return false;
    }
    if 0xbf < b {
        return false;
    }
    if c < 0x80 {
        return false;
    }
    if 0xbf < c {
        return false;
    }
    true
}

// The place behind such characters in a row from a place on.
fn past_threes(s: &[u8], from: usize) -> usize
    requires { from ≤ length s.now }
    ensures { (from ≤ result) × (result ≤ length s.now) × (utf8 (drop result s.now) ≡ utf8 (drop from s.now)) }
{
    let mut i = from;
    while 3 <= s.len() - i {
        if !is_three(s[i], s[i + 1], s[i + 2]) {
            return i;
        }
        i += 3;
    }
    i
}

// Whether s is UTF-8, character by character; characters of three bytes mostly stand beside others.
fn scan(s: &[u8]) -> bool
    ensures { result ≡ utf8 s.now }
{
    let mut i: usize = 0;
    while i < s.len() {
        let n = size_at(s, i);
        if n == 0 {
            return false;
        }
        i += n;
        if n == 3 {
            i = past_threes(s, i);
        }
    }
    true
}

// 1 where b isn't ASCII, else m.
fn marked(m: u8, b: u8) -> u8
    ensures { result ≡ pick (ltb b 0x80) m 1 }
{
    if b < 0x80 { m } else { 1 }
}

// Whether every byte is below 0x80. The loop has no early exit, so that it compiles to wide operations.
fn all_ascii(s: &[u8]) -> bool
    ensures { result ≡ ascii s.now }
{
    let mut m: u8 = 0;
    let mut i: usize = 0;
    while i < s.len() {
        m = marked(m, s[i]);
        i += 1;
    }
    m == 0
}

// How many bytes at the front of s are ASCII, by blocks of 128: there may be more in the block at which it ends. The last 128 bytes are such a block
// too, of which some were looked at before.
pub fn ascii_front(s: &[u8]) -> usize
    ensures { result ≡ ascii_front s.now }
{
    let mut at: usize = 0;
    while 128 <= s.len() - at {
        let e = at + 128;
        if all_ascii(&s[at..e]) {
            at = e;
        } else {
            return at;
        }
    }
    if at < 128 {
        if all_ascii(&s[at..]) {
            return s.len();
        }
        return at;
    }
    let from = s.len() - 128;
    if all_ascii(&s[from..]) {
        return s.len();
    }
    at
}

// Whether s is UTF-8.
pub fn is_utf8(s: &[u8]) -> bool
    ensures { result ≡ utf8 s.now }
{
    if ascii_front(s) == s.len() {
        return true;
    }
    scan(s)
}
