// Stretches of instants, put in a lent list as they end: two numbers each, the first instant and the end, in ticks since 1970.
#![tactic(auto)]

ghost use Rattle.std.specs.Prelude.{◌≡◌, ◌+◌, ◌*◌, ◌≤◌, length, set};
ghost use Rattle.std.proofs.lemmas.List.Edits.{sets};
ghost use Rattle.stretches.specs.Stretches.{closed, numbers_of};
ghost use Rattle.stretches.specs.View.{Marked};

use stretches::Marks;

// A number at a place of the list, where the list has that place.
fn put_number(out: &mut [i64], i: usize, z: i64)
    ensures { out.new ≡ set out.old i z }
{
    if i < out.len() {
        out[i] = z;
    }
}

// Ends the stretch that is open, if one is, before t: it is put behind k others. How many there are then; those for which the list has no
// place are counted too.
pub fn put_stretch(out: &mut [i64], k: usize, since: u64, t: u64) -> usize
    requires { k ≤ 3281606784000000000 }
    ensures { (result ≡ k + length (closed since t)) × (out.new ≡ sets out.old (2 * k) (numbers_of (closed since t))) }
{
    if since == 0 {
        return k;
    }
    let first = signed::ticks(since);
    let end = signed::ticks(t);
    put_number(out, 2 * k, first);
    put_number(out, 2 * k + 1, end);
    k + 1
}

// From the instant t on the test holds, or it fails.
pub fn mark(out: &mut [i64], m: Marks, t: u64, holds: bool) -> Marks
    requires { m.count ≤ 3281606784000000000 }
    ensures { Marked out.old m t holds result out.new }
{
    if holds {
        if m.since == 0 {
            return Marks {
                count: m.count,
                since: t,
            };
        }
        return m;
    }
    let k = put_stretch(out, m.count, m.since, t);
    Marks { count: k, since: 0 }
}
