// A cursor moved on to the interval that holds an instant: over the listed ones, and in the tail in one step.
#![tactic(auto)]

ghost use Rattle.std.specs.Prelude.{◌≤◌, ◌<◌, length};
ghost use Rattle.base.specs.Moment.{Finite};
ghost use Rattle.cursors.specs.Cursors.{Points, At};
ghost use Rattle.cursor_steps.specs.Usual.{UsualEnd};

use cursors::Cursor;
use zones::ZoneEnd;

// A cursor at a later interval that starts no later than t: the next listed one, or in the tail the one that holds t.
fn next(s: &[u8], pool: u64, c: Cursor, ending: ZoneEnd, t: u64) -> Cursor
    requires { Points pool s.now ending c × (c.held.end ≤ t) × Finite t }
    ensures { Points pool s.now ending result × (result.held.start ≤ t) × (c.held.end < result.held.end) }
{
    let left = c.left;
    let i = c.next;
    if 0 < left {
        return listed_cursors::at_interval(s, pool, i, left - 1, c.place, ending);
    }
    match ending {
        ZoneEnd::Tailed(m) => {
            let x = lookups::in_tail(t, m);
            Cursor {
                held: x,
                left: 0,
                next: i,
                place: c.place,
            }
        }
        // Without a tail the last interval has no end.
        ZoneEnd::Untailed => c,
        ZoneEnd::Refused(_) => c,
    }
}

// Where the next listed interval holds t and one of five bytes stands behind it, the start of that one; else 0.
fn usual_end(s: &[u8], pool: u64, c: Cursor, t: u64) -> u64
    requires { 1 < c.left → c.place ≤ length s.now }
    ensures { UsualEnd s.now pool c t result }
{
    if c.left < 2 {
        return 0;
    }
    if t < c.held.end {
        return 0;
    }
    let i = c.next;
    let m = next_intervals::short_next(s, c.place, pool, i.start);
    if m <= t {
        return 0;
    }
    m
}

// The cursor moved on to the interval that holds the instant t, one interval after the other.
fn walk(s: &[u8], pool: u64, c: Cursor, ending: ZoneEnd, t: u64) -> Cursor
    requires { Points pool s.now ending c × (c.held.start ≤ t) × Finite t }
    ensures { At pool s.now ending t result }
{
    let mut x = c;
    while x.held.end <= t {
        x = next(s, pool, x, ending, t);
    }
    x
}

// The same. Mostly that is the next one, which is taken here without a walk, for which the end of the zone would be copied.
pub fn seek(s: &[u8], pool: u64, c: Cursor, ending: ZoneEnd, t: u64) -> Cursor
    requires { Points pool s.now ending c × (c.held.start ≤ t) × Finite t }
    ensures { At pool s.now ending t result }
{
    let m = usual_end(s, pool, c, t);
    if m != 0 {
        return listed_cursors::at_usual(s, c.next, c.left - 1, c.place, m);
    }
    walk(s, pool, c, ending, t)
}
