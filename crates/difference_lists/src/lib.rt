// The stretches in which the two sides of a difference differ, put in a lent list.
#![tactic(auto)]

ghost use Rattle.std.specs.Prelude.{◌≡◌, length};
ghost use Rattle.std.proofs.lemmas.List.Edits.{sets};
ghost use Rattle.base.specs.Moment.{Finite};
ghost use Rattle.stretches.specs.Stretches.{numbers_of};
ghost use Rattle.differences.specs.View.{SideIn, side_stretches, Lists};
ghost use Rattle.difference_lists.specs.Window.{end_of};

use base::{Fault, Refusal};
use differences::Side;

// The stretches of two zones, put in the lent list.
fn compare(
    f: &[u8],
    sf: &[u32],
    x: Side,
    g: &[u8],
    sg: &[u32],
    y: Side,
    first: u64,
    last: u64,
    out: &mut [i64],
) -> usize
    requires { SideIn f.now sf.now first x × SideIn g.now sg.now first y × Finite first × Finite last }
    ensures { (result ≡ length (side_stretches f.now x g.now y first last)) × (out.new ≡ sets out.old 0 (numbers_of (side_stretches f.now x g.now y first last))) }
{
    let fp = x.pool;
    let fe = x.past;
    let fa = x.from;
    let fz = x.to;
    let a = x.cursor;
    let ex = x.ending;
    let gp = y.pool;
    let ge = y.past;
    let ga = y.from;
    let gz = y.to;
    let b = y.cursor;
    let ey = y.ending;
    zone_differences::compare(
        &f[fa..fz],
        &f[fp..fe],
        sf,
        ex,
        a,
        &g[ga..gz],
        &g[gp..ge],
        sg,
        ey,
        b,
        x.count,
        y.count,
        first,
        last,
        out,
    )
}

// The end of a window to before the instant last, or where the zones cannot differ from then on.
fn window_end(
    f: &[u8],
    sf: &[u32],
    x: Side,
    g: &[u8],
    sg: &[u32],
    y: Side,
    first: u64,
    last: u64,
) -> u64
    requires { SideIn f.now sf.now first x × SideIn g.now sg.now first y }
    ensures { result ≡ end_of f.now x g.now y last }
{
    let fp = x.pool;
    let fe = x.past;
    let ex = x.ending;
    let gp = y.pool;
    let ge = y.past;
    let ey = y.ending;
    let e = tail_matches::same_from(&f[fp..fe], sf, ex, &g[gp..ge], sg, ey);
    occurrences::smaller(last, e)
}

// They are counted first, so that nothing is written to a list that is too small.
pub fn list(
    f: &[u8],
    sf: &[u32],
    x: Side,
    g: &[u8],
    sg: &[u32],
    y: Side,
    first: u64,
    last: u64,
    out: &mut [i64],
) -> Result<usize, Fault>
    requires { SideIn f.now sf.now first x × SideIn g.now sg.now first y × Finite first × Finite last }
    ensures { Lists (side_stretches f.now x g.now y first last) out.old result out.new }
{
    let e = window_end(f, sf, x, g, sg, y, first, last);
    let mut none = [0i64; 0];
    let n = compare(f, sf, x, g, sg, y, first, e, &mut none);
    if out.len() / 2 < n {
        return Err((Refusal::TooShort, 0));
    }
    if n == 0 {
        return Ok(0);
    }
    let k = compare(f, sf, x, g, sg, y, first, e, out);
    Ok(k)
}
