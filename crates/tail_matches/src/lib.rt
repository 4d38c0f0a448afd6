// From when on two zones cannot differ: where both are in tails that are the same but for their starts.
#![tactic(auto)]

ghost use Rattle.std.specs.Prelude.{◌≡◌, ◌<◌, length};
ghost use Rattle.base.specs.Pick.{both as both_of};
ghost use Rattle.pool.specs.Pool.{strings_of};
ghost use Rattle.pool.specs.Index.{Ready};
ghost use Rattle.same_tails.specs.SameTails.{same_test, same_date, same_rule, same_tail, same_text, alike as alike_of, tails_from, same_from, Named, EndNamed};

use base::END;
use recurrence::Tail;
use rules::Rule;
use tails::NamedTail;
use zones::ZoneEnd;

fn both(a: bool, b: bool) -> bool
    ensures { result ≡ both_of a b }
{
    if a {
        return b;
    }
    false
}

fn same_test(a: bool, b: bool) -> bool
    ensures { result ≡ same_test a b }
{
    if a {
        return b;
    }
    !b
}

// Whether two rules fall on the same day of each year.
fn same_date(a: Rule, b: Rule) -> bool
    ensures { result ≡ same_date a b }
{
    let after = same_test(a.after, b.after);
    let plus = same_test(a.plus, b.plus);
    let last = same_test(a.last, b.last);
    both(
        a.weekday == b.weekday,
        both(
            after,
            both(plus, both(a.month == b.month, both(last, a.day == b.day))),
        ),
    )
}

fn same_rule(a: Rule, b: Rule) -> bool
    ensures { result ≡ same_rule a b }
{
    both(a.mode == b.mode, both(a.time == b.time, same_date(a, b)))
}

// Whether two tails are the same but for their starts.
fn same_tail(a: Tail, b: Tail) -> bool
    ensures { result ≡ same_tail a b }
{
    let p = a.standard;
    let q = b.standard;
    let x = a.daylight;
    let y = b.daylight;
    let standard = same_rule(p, q);
    let daylight = same_rule(x, y);
    both(
        a.offset == b.offset,
        both(a.savings == b.savings, both(standard, daylight)),
    )
}

// Whether the string i of a pool is the string j of another. Each pool has its index.
fn same_text(p: &[u8], sp: &[u32], i: u64, q: &[u8], sq: &[u32], j: u64) -> bool
    requires { Ready p.now sp.now × Ready q.now sq.now × (i < length (strings_of p.now)) × (j < length (strings_of q.now)) }
    ensures { result ≡ same_text p.now i q.now j }
{
    let k = i as usize;
    let l = j as usize;
    strings::has_id(p, sp, k, strings::text_by(q, sq, l))
}

// Whether nothing of two tails differs where both are in force.
fn alike(p: &[u8], sp: &[u32], a: NamedTail, q: &[u8], sq: &[u32], b: NamedTail) -> bool
    requires { Ready p.now sp.now × Ready q.now sq.now × Named p.now a × Named q.now b }
    ensures { result ≡ alike_of p.now a q.now b }
{
    let x = a.tail;
    let y = b.tail;
    let tail = same_tail(x, y);
    let standard = same_text(p, sp, a.standard, q, sq, b.standard);
    let daylight = same_text(p, sp, a.daylight, q, sq, b.daylight);
    both(tail, both(standard, daylight))
}

fn tails_from(p: &[u8], sp: &[u32], a: NamedTail, q: &[u8], sq: &[u32], b: NamedTail) -> u64
    requires { Ready p.now sp.now × Ready q.now sq.now × Named p.now a × Named q.now b }
    ensures { result ≡ tails_from p.now a q.now b }
{
    if alike(p, sp, a, q, sq, b) {
        let tail = a.tail;
        let other = b.tail;
        return occurrences::larger(tail.start, other.start);
    }
    END
}

// The moment from which two zones with these endings cannot differ, by their tails. Each has its own pool and the index of that pool.
pub fn same_from(p: &[u8], sp: &[u32], e: ZoneEnd, q: &[u8], sq: &[u32], f: ZoneEnd) -> u64
    requires { Ready p.now sp.now × Ready q.now sq.now × EndNamed p.now e × EndNamed q.now f }
    ensures { result ≡ same_from p.now e q.now f }
{
    match e {
        ZoneEnd::Untailed => END,
        ZoneEnd::Refused(_) => END,
        ZoneEnd::Tailed(a) => match f {
            ZoneEnd::Untailed => END,
            ZoneEnd::Refused(_) => END,
            ZoneEnd::Tailed(b) => tails_from(p, sp, a, q, sq, b),
        },
    }
}
