// Where two zones differ in offset, savings or name, over a window of instants: one step for each interval of either that meets the window.
#![tactic(auto)]

ghost use Rattle.std.specs.Prelude.{◌≡◌, ◌<◌, length};
ghost use Rattle.std.proofs.lemmas.List.Edits.{sets};
ghost use Rattle.pool.specs.Pool.{strings_of};
ghost use Rattle.pool.specs.Index.{Ready};
ghost use Rattle.stretches.specs.Stretches.{stretches, numbers_of};
ghost use Rattle.zone_differences.specs.Differ.{unlike as unlike_of, differ_at};
ghost use Rattle.zone_differences.specs.View.{ComparedAt};

use cursors::Cursor;
use stretches::Marks;
use zones::{Found, ZoneEnd};

// Whether two intervals differ. Each has its own pool and the index of that pool.
fn unlike(px: &[u8], sx: &[u32], x: Found, py: &[u8], sy: &[u32], y: Found) -> bool
    requires { Ready px.now sx.now × Ready py.now sy.now × (x.name < length (strings_of px.now)) × (y.name < length (strings_of py.now)) }
    ensures { result ≡ unlike_of px.now x py.now y }
{
    if x.wall != y.wall {
        return true;
    }
    if x.savings != y.savings {
        return true;
    }
    let i = x.name as usize;
    let j = y.name as usize;
    if strings::has_id(px, sx, i, strings::text_by(py, sy, j)) {
        return false;
    }
    true
}

// The stretches of a window at whose instants the zone with the data zx and the pool px differs from the one with zy and py, put in the lent
// list. How many there are; those for which the list has no place are counted too. ex and ey are the endings of the zones, a and b cursors at the
// window's first instant.
pub fn compare(
    zx: &[u8],
    px: &[u8],
    sx: &[u32],
    ex: ZoneEnd,
    a: Cursor,
    zy: &[u8],
    py: &[u8],
    sy: &[u32],
    ey: ZoneEnd,
    b: Cursor,
    kx: u64,
    ky: u64,
    first: u64,
    last: u64,
    out: &mut [i64],
) -> usize
    requires { ComparedAt zx.now px.now sx.now ex a zy.now py.now sy.now ey b kx ky first last }
    ensures { (result ≡ length (stretches (differ_at zx.now px.now zy.now py.now) first last)) × (out.new ≡ sets out.old 0 (numbers_of (stretches (differ_at zx.now px.now zy.now py.now) first last))) }
{
    let mut t = first;
    let mut x = a;
    let mut y = b;
    let mut m = Marks { count: 0, since: 0 };
    while t < last {
        let u = x.held;
        let v = y.held;
        let e = occurrences::smaller(occurrences::smaller(u.end, v.end), last);
        let d = unlike(px, sx, u, py, sy, v);
        m = stretch_marks::mark(out, m, t, d);
        x = cursor_steps::seek(zx, kx, x, ex, e);
        y = cursor_steps::seek(zy, ky, y, ey, e);
        t = e;
    }
    stretch_marks::put_stretch(out, m.count, m.since, t)
}
