// Lines out of blocks of input.
#![tactic(auto)]

ghost use Rattle.lines.specs.Splitting.{Keeps, Gathers};

use lines::Gathered;

// Adds the bytes of s up to its first line feed to the line of which the first n bytes of `held` are held, as many as there is room for.
pub fn gather(s: &[u8], held: &mut [u8], n: usize) -> Gathered
    ensures { Gathers held.old n s.now result held.new }
{
    let k = byte_search::find(s, 0, s.len(), b'\n');
    let m = keep(&s[..k], held, n);
    if k < s.len() {
        return Gathered::Whole(m, k + 1);
    }
    Gathered::Begun(m)
}

// Adds the bytes of s behind the first n of `held`, as many as there is room for, and gives how many are held then.
fn keep(s: &[u8], held: &mut [u8], n: usize) -> usize
    ensures { Keeps held.old n s.now result held.new }
{
    if held.len() <= n {
        return held.len();
    }
    let room = held.len() - n;
    if s.len() <= room {
        return n + slices::copy(s, &mut held[n..]);
    }
    n + slices::copy(&s[..room], &mut held[n..])
}
