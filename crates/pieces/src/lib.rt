// A zone as the rewriter sees it: where its transitions and the bytes behind them lie.
#![tactic(auto)]

ghost use Rattle.std.specs.Prelude.{◌≡◌, ◌*◌, ◌-◌, ◌≤◌, length, drop};
ghost use Rattle.base.specs.Pick.{both};
ghost use Rattle.transitions.specs.Transition.{write_moment};
ghost use Rattle.places.specs.Placed.{Stands, of_read};
ghost use Rattle.pieces.specs.Content.{piece_end, after_flag, parse_head};
ghost use Rattle.pieces.specs.Form.{code_preferred};
ghost use Rattle.pieces.specs.View.{EndAt};

use base::Coded;

// The place behind an interval's name, wall offset and savings.
fn behind_details(s: &[u8], at: usize) -> Coded<u64>
    requires { at ≤ length s.now }
    ensures { Stands s.now (piece_end 1 (drop at s.now)) (of_read result) }
{
    match places::count_at(s, at) {
        Err(k) => Err(k),
        Ok((_, a)) => match places::sum_at(s, a) {
            Err(k) => Err(k),
            Ok((_, b)) => places::sum_at(s, b),
        },
    }
}

// Where the bytes end that follow a transition, with n more transitions behind it: an interval's details, or all the rest.
pub fn piece_end(s: &[u8], at: usize, n: u64) -> usize
    requires { at ≤ length s.now }
    ensures { EndAt s.now n at result }
{
    if n == 0 {
        return s.len();
    }
    if 3 <= s.len() - at {
        if places::short_details(s, at) {
            return at + 3;
        }
    }
    match behind_details(s, at) {
        Err(_) => s.len(),
        Ok((_, e)) => e,
    }
}

// The length of a transition's preferred form, where its code took k bytes: one of at most three is preferred.
pub fn code_size(prev: u64, m: u64, k: usize) -> usize
    requires { k ≤ 3 → length (write_moment prev m) ≡ k }
    ensures { result ≡ length (write_moment prev m) }
{
    if k <= 3 {
        return k;
    }
    transition_writers::moment_size(prev, m)
}

// Whether the transition at a place, after prev, is in the writer's form, where all before it are.
pub fn code_preferred(s: &[u8], at: usize, prev: u64, before: bool) -> bool
    requires { at ≤ length s.now }
    ensures { result ≡ both before (code_preferred prev (drop at s.now)) }
{
    if before {
        match places::moment_at(s, at, prev) {
            Err(_) => {
                return false;
            }
            Ok((m, a)) => {
                let k = a - at;
                return code_size(prev, m, k) == k;
            }
        }
    }
    false
}

// How many transitions a zone with a flag has, and the place of the first.
fn behind_flag(s: &[u8], at: usize, flag: u64) -> Coded<u64>
    requires { at ≤ length s.now }
    ensures { Stands s.now (after_flag flag (drop at s.now)) (of_read result) }
{
    if flag != 2 {
        return Ok((0, s.len()));
    }
    match places::count_at(s, at) {
        Err(k) => Err(k),
        Ok((n, e)) => Ok((n + 1, e)),
    }
}

// The same from the front of the zone's data on.
pub fn read_head(s: &[u8]) -> Coded<u64>
    ensures { Stands s.now (parse_head s.now) (of_read result) }
{
    match places::count_at(s, 0) {
        Err(k) => Err(k),
        Ok((_, a)) => match places::byte_at(s, a) {
            Err(k) => Err(k),
            Ok((flag, e)) => behind_flag(s, e, flag),
        },
    }
}

// The least length that m bytes with n transitions have in their preferred form: no form saves more than seven bytes.
pub fn least(m: u64, n: u64) -> u64
    requires { n ≤ 2147483648 }
    ensures { result ≡ m - 7 * n }
{
    let saved = 7 * n;
    if m < saved {
        return 0;
    }
    m - saved
}
