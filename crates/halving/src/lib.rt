// Halving a lent table of instants, for repeated lookups.
#![tactic(auto)]

ghost use Rattle.std.specs.Prelude.{◌≡◌, ◌*◌, ◌≤◌, ◌<◌, pos, length, get_or};
ghost use Rattle.std.specs.Int.Signed.{le_z};
ghost use Rattle.base.specs.Pick.{pick};
ghost use Rattle.halving.specs.Halving.{find_start};
ghost use Rattle.halving.specs.Looks.{left_of, StandsAt, Looks, Near, Due};

use base::{Fault, Refusal};

// 1 where the entry at a place isn't after the instant, else 0.
fn keeps(table: &[i64], at: usize, instant: i64) -> usize
    requires { at < length table.now }
    ensures { result ≡ pick (le_z (get_or table.now at (pos 0)) instant) 1 0 }
{
    if table[at] <= instant { 1 } else { 0 }
}

// The entries left are those from low on before high.
#[derive(Clone, Copy)]
pub struct Bounds {
    pub low: usize,
    pub high: usize,
    pub probes: usize,
}

// One look.
fn look(table: &[i64], b: Bounds, instant: i64) -> Bounds
    requires { StandsAt table.now instant b × (1 < left_of b) }
    ensures { Looks table.now instant b result }
{
    let middle = (b.low + b.high) / 2;
    if table[middle] <= instant {
        return Bounds {
            low: middle,
            high: b.high,
            probes: b.probes + 1,
        };
    }
    Bounds {
        low: b.low,
        high: middle,
        probes: b.probes + 1,
    }
}

// The look that n entries have where they are twice as many as half, or more.
fn look_due(table: &[i64], b: Bounds, instant: i64, n: usize, half: usize) -> Bounds
    requires { StandsAt table.now instant b × (Due n (2 * half) (left_of b) × ((0 < half) × (half ≤ 2048))) }
    ensures { StandsAt table.now instant result × Due n half (left_of result) }
{
    if n < 2 * half {
        return b;
    }
    look(table, b, instant)
}

// The looks that leave 64 entries at most.
fn look_many(table: &[i64], b: Bounds, instant: i64, n: usize) -> Bounds
    requires { StandsAt table.now instant b × (Near n (left_of b) × (n ≤ 8191)) }
    ensures { StandsAt table.now instant result × Due n 32 (left_of result) }
{
    if n < 64 {
        return b;
    }
    let b1 = look_due(table, b, instant, n, 2048);
    let b2 = look_due(table, b1, instant, n, 1024);
    let b3 = look_due(table, b2, instant, n, 512);
    let b4 = look_due(table, b3, instant, n, 256);
    let b5 = look_due(table, b4, instant, n, 128);
    let b6 = look_due(table, b5, instant, n, 64);
    look_due(table, b6, instant, n, 32)
}

// The looks that leave two entries at most.
fn look_few(table: &[i64], b: Bounds, instant: i64, n: usize) -> Bounds
    requires { StandsAt table.now instant b × Due n 32 (left_of b) }
    ensures { StandsAt table.now instant result × (left_of result ≤ 2) }
{
    let b1 = look_due(table, b, instant, n, 16);
    let b2 = look_due(table, b1, instant, n, 8);
    let b3 = look_due(table, b2, instant, n, 4);
    let b4 = look_due(table, b3, instant, n, 2);
    look_due(table, b4, instant, n, 1)
}

// The last look, which is none where one entry is left.
fn look_last(table: &[i64], b: Bounds, instant: i64) -> Result<(usize, usize), Fault>
    requires { StandsAt table.now instant b × (left_of b ≤ 2) }
    ensures { result ≡ find_start table.now instant }
{
    let middle = (b.low + b.high) / 2;
    let probes = b.probes + (middle - b.low);
    if table[middle] <= instant {
        return Ok((middle, probes));
    }
    Ok((b.low, probes))
}

// The entry of a table that halving leaves for an instant, and how many entries were looked at. A branch on an entry would be guessed wrong every other time, and so would one on how many
// are left, which differs by one between entries. So what a look keeps is chosen without a branch, and how many looks there are is told by
// the table's length, up to the last. Behind 13 looks they stand one after the other, where the compiler moves numbers and doesn't branch; in
// a loop a look is computed from a number, 1 or 0, and by 1 + k the product becomes a shift.
pub fn find_start(table: &[i64], instant: i64) -> Result<(usize, usize), Fault>
    ensures { result ≡ find_start table.now instant }
{
    let mut n = table.len();
    if n == 0 {
        return Err((Refusal::NotFound, 0));
    }
    let mut low = 0;
    let mut probes = 0;
    let mut m = n;
    while 8191 < m {
        let half = n / 2;
        probes += 1;
        let k = keeps(table, low + half, instant);
        low = low + half * (1 + k) - half;
        n = (n + k) / 2;
        m = m / 2;
    }
    let b = Bounds {
        low: low,
        high: low + n,
        probes: probes,
    };
    let many = look_many(table, b, instant, m);
    let few = look_few(table, many, instant, m);
    look_last(table, few, instant)
}
