// How far the whole fields of some bytes go, from any place between two of them. A walk over heads alone: a step gives a number, and only the loop's
// end an `Extent`, since what a call hands back as a struct goes through memory.
#![tactic(auto)]

ghost use Rattle.std.specs.Prelude.{◌≡◌, ◌≤◌, ◌<◌, length, eqb};
ghost use Rattle.base.specs.Pick.{pick};
ghost use Rattle.frames.specs.Frame.{order, read_size};
ghost use Rattle.extents.specs.Extent.{unrefused, step_of, extent_of};
ghost use Rattle.extents.specs.Span.{span_of};

use frames::Frame;

// The largest place just past a field.
const LARGEST: usize = 4194304;

// A place between frames, and the ID of the field before it, 0 where there is none.
#[derive(Clone, Copy)]
pub struct Extent {
    pub at: usize,
    pub prev: usize,
}

// Whether the ID `i` may stand behind a field with the ID `prev`, or as the first.
fn may_stand(seen: bool, prev: usize, i: usize) -> bool
    ensures { result ≡ unrefused (order seen prev i) }
{
    if seen {
        if i == prev {
            if i == 1 {
                return true;
            }
            return 7 < i;
        }
        return prev < i;
    }
    i == 0
}

// The length of the size at the front of `r` and of the data that it tells; 0 where the size can't be read. The loop's end is a constant, so that it
// can be unrolled.
fn span(r: &[u8]) -> usize
    ensures { result ≡ span_of (read_size r.now) }
{
    if r.len() == 0 {
        return 0;
    }
    let a = r[0] as usize;
    // Behind a field of no data the next place waits for no sum.
    if a == 0 {
        return 1;
    }
    if a < 128 {
        return 1 + a;
    }
    if r.len() == 1 {
        return 0;
    }
    let b = r[1] as usize;
    if b < 128 {
        return 2 + (a % 128 + 128 * b);
    }
    if r.len() == 2 {
        return 0;
    }
    let c = r[2] as usize;
    if c < 128 {
        return 3 + (a % 128 + 128 * (b % 128) + 16384 * c);
    }
    if r.len() == 3 {
        return 0;
    }
    let d = r[3] as usize;
    if d < 128 {
        return 4 + (a % 128 + 128 * (b % 128) + 16384 * (c % 128) + 2097152 * d);
    }
    if r.len() == 4 {
        return 0;
    }
    let e = r[4] as usize;
    if 7 < e {
        return 0;
    }
    5 + (a % 128 + 128 * (b % 128) + 16384 * (c % 128) + 2097152 * (d % 128) + 268435456 * e)
}

// The place behind the whole field at the place `at`, behind a field with the ID `prev`; `at` where none is there. The order of the last tests
// leaves the loop over fields without a choice between two places.
fn field_end(s: &[u8], at: usize, prev: usize) -> usize
    requires { (0 < at) × (at ≤ length s.now) }
    ensures { result ≡ (step_of s.now (record { at = at; prev = prev })).at }
{
    if s.len() == at {
        return at;
    }
    if may_stand(4 < at, prev, s[at] as usize) {
        let head = at + 1;
        let n = span(&s[head..]);
        if n <= s.len() - head {
            let e = head + n;
            if e <= LARGEST {
                if head < e {
                    return e;
                }
            }
        }
    }
    at
}

// `c` behind the version, where `c` is before it and it is there.
fn past_version(s: &[u8], c: Extent) -> Extent
    ensures { result ≡ pick (eqb c.at 0) (step_of s.now c) c }
{
    if c.at != 0 {
        return c;
    }
    match headers::version(s) {
        Frame::Version => Extent { at: 4, prev: 0 },
        Frame::End => c,
        Frame::Cut => c,
        Frame::Refused(_) => c,
        Frame::Whole(_, _, _) => c,
    }
}

// Where the whole fields end, from the place `from` on.
pub fn whole_end(s: &[u8], from: Extent) -> Extent
    requires { from.at ≤ length s.now }
    ensures { result ≡ extent_of s.now from }
{
    let c = past_version(s, from);
    let mut at = c.at;
    let mut prev = c.prev;
    if at == 0 {
        return c;
    }
    loop {
        let e = field_end(s, at, prev);
        if e == at {
            return Extent { at: at, prev: prev };
        }
        prev = s[at] as usize;
        at = e;
    }
}
