// The program's question lines, read (01, "One whole file").
#![tactic(auto)]

ghost use Rattle.std.specs.Prelude.{◌≡◌};
ghost use Rattle.lines.specs.Question.{parse_line, ticks, digits, behind_digits, marked, ticks_of};

use lines::Kind;

// The longest question line, without its line feed.
const LONGEST: usize = 2048;

// A question line without its line feed: the length of the ID, which stands at the line's front, the ticks and the mark; or it is not understood.
pub fn parse_line(line: &[u8]) -> Option<(usize, i64, Kind)>
    ensures { result ≡ parse_line line.now }
{
    if LONGEST < line.len() {
        return None;
    }
    let n = byte_search::find(line, 0, line.len(), b' ');
    if n < line.len() {
        let a = n + 1;
        return parse_ticks(&line[a..], n);
    }
    None
}

// What follows an ID of n bytes and a space: an optional minus.
fn parse_ticks(s: &[u8], n: usize) -> Option<(usize, i64, Kind)>
    ensures { result ≡ ticks n s.now }
{
    if s.len() == 0 {
        return None;
    }
    if s[0] == b'-' {
        return parse_digits(&s[1..], n, true);
    }
    parse_digits(s, n, false)
}

// What follows the minus: at most 19 digits, and the mark.
fn parse_digits(s: &[u8], n: usize, minus: bool) -> Option<(usize, i64, Kind)>
    ensures { result ≡ digits n minus 0 0 s.now }
{
    let mut v: u64 = 0;
    let mut i = 0;
    while i < s.len() {
        if 19 <= i {
            return behind_digits(&s[i..], n, minus, i, v);
        }
        let b = s[i];
        if b < b'0' {
            return behind_digits(&s[i..], n, minus, i, v);
        }
        if b'9' < b {
            return behind_digits(&s[i..], n, minus, i, v);
        }
        v = 10 * v + (b - b'0') as u64;
        i += 1;
    }
    behind_digits(&s[i..], n, minus, i, v)
}

// What follows i digits that make v.
fn behind_digits(s: &[u8], n: usize, minus: bool, i: usize, v: u64) -> Option<(usize, i64, Kind)>
    ensures { result ≡ behind_digits n minus i v s.now }
{
    if i == 0 {
        return None;
    }
    parse_mark(s, n, signed_ticks(minus, v))
}

// What follows an ID of n bytes and the ticks t.
fn parse_mark(s: &[u8], n: usize, t: i64) -> Option<(usize, i64, Kind)>
    ensures { result ≡ marked n t s.now }
{
    if s.len() == 0 {
        return Some((n, t, Kind::Plain));
    }
    if s == b" part".as_slice() {
        return Some((n, t, Kind::Part));
    }
    if s == b" all".as_slice() {
        return Some((n, t, Kind::All));
    }
    None
}

// The number v behind a minus or not; the largest one where it is past 64 bits.
fn signed_ticks(minus: bool, v: u64) -> i64
    ensures { result ≡ ticks_of minus v }
{
    if minus {
        if v == 0 {
            return 0;
        }
        let k = v - 1;
        if k < 9223372036854775808 {
            return -1 - (k as i64);
        }
        return 9223372036854775807;
    }
    if v < 9223372036854775808 {
        return v as i64;
    }
    9223372036854775807
}
