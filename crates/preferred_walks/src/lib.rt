// The walks over the fields of a well-formed file that is rewritten: the length of its preferred file, and the writing of it. Each field is written by
// a callee that is lent the output from the present place on. A zone that is preferred is not read again.
#![tactic(auto)]

ghost use Rattle.std.specs.Prelude.{◌≡◌, [], ◌∷◌, ◌≤◌, length, leb};
ghost use Rattle.pieces.specs.View.{Put};
ghost use Rattle.rewrite.specs.Preferred.{content, print_fields, preferred};
ghost use Rattle.preferred_walks.specs.View.{Rewritable, Empty};

// The length of the preferred file.
fn total(s: &[u8], flags: &[u8]) -> usize
    requires { Rewritable s.now flags.now }
    ensures { result ≡ length (preferred s.now) }
{
    let mut n = 0;
    let mut at = 4;
    while at < s.len() {
        let f = sizes::read_field(s, at);
        let a = f.start;
        let e = f.end;
        n += preferred_fields::field_size(f.id, &s[a..e], flags);
        at = e;
    }
    4 + n
}

// Whether an output has room for the preferred file, which is never longer than its source.
pub fn has_room(s: &[u8], flags: &[u8], room: usize) -> bool
    requires { Rewritable s.now flags.now }
    ensures { result ≡ leb (length (preferred s.now)) room }
{
    if s.len() <= room {
        return true;
    }
    total(s, flags) <= room
}

// Writes the version.
fn write_version(out: &mut [u8]) -> usize
    requires { 4 ≤ length out.old }
    ensures { Put (0 ∷ 0 ∷ 0 ∷ 0 ∷ []) out.old result out.new }
{
    out[0] = 0;
    out[1] = 0;
    out[2] = 0;
    out[3] = 0;
    4
}

// Whether a field of no data that is no zone stands at a place. The next place then waits for no size.
fn is_empty(s: &[u8], at: usize) -> bool
    requires { at ≤ length s.now }
    ensures { Empty s.now at result }
{
    if s.len() - at < 2 {
        return false;
    }
    if s[at] == 1 {
        return false;
    }
    s[at + 1] == 0
}

// Writes the fields of the preferred file. Those that stay as they are, in a row, are copied at once: they stand from `from` to `at`.
fn write_fields(s: &[u8], flags: &[u8], out: &mut [u8]) -> usize
    requires { Rewritable s.now flags.now × (length (print_fields (content s.now)) ≤ length out.old) }
    ensures { Put (print_fields (content s.now)) out.old result out.new }
{
    let mut w = 0;
    let mut from = 4;
    let mut at = 4;
    while at < s.len() {
        if is_empty(s, at) {
            at += 2;
        } else {
            let f = sizes::read_field(s, at);
            let a = f.start;
            let e = f.end;
            if preferred_fields::is_unchanged(f.id, a - at, &s[a..e], flags) {
                at = e;
            } else {
                w += copies::copy(&s[from..at], &mut out[w..]);
                w += preferred_fields::write_field(f.id, &s[a..e], flags, &mut out[w..]);
                from = e;
                at = e;
            }
        }
    }
    w + copies::copy(&s[from..], &mut out[w..])
}

// Writes the preferred file.
pub fn write_file(s: &[u8], flags: &[u8], out: &mut [u8]) -> usize
    requires { Rewritable s.now flags.now × (length (preferred s.now) ≤ length out.old) }
    ensures { Put (preferred s.now) out.old result out.new }
{
    let w = write_version(out);
    w + write_fields(s, flags, &mut out[w..])
}
