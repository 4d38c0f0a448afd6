// The alias dictionary, field 3: its check.
#![tactic(auto)]

ghost use Rattle.std.specs.Prelude.{◌≡◌, ◌≤◌, length, drop};
ghost use Rattle.pool.specs.Pool.{strings_of};
ghost use Rattle.pool.specs.Index.{Ready};
ghost use Rattle.ids.specs.Memory.{Sorted};
ghost use Rattle.aliases.specs.Field.{all_entries, parse_aliases};
ghost use Rattle.aliases.specs.View.{verdict_of, Turned};

use base::Refusal;

// The place behind the entry at a place of the dictionary d, behind n others. order remembers its key.
fn take_entry(
    pool: &[u8],
    starts: &[u32],
    count: usize,
    d: &[u8],
    at: usize,
    order: &mut [u16],
    n: usize,
) -> Result<usize, Refusal>
    requires { Ready pool.now starts.now × (count ≡ length (strings_of pool.now)) × (at ≤ length d.now) × Sorted (strings_of pool.now) order.old n }
    ensures { Turned (strings_of pool.now) d.now at order.old n order.new result }
{
    match places::name_at(d, at, count as u64) {
        Err(n) => Err(n),
        Ok((k, b)) => {
            if ids::take_string(pool, starts, order, n, k as usize) {
                return Err(Refusal::SecondAlias);
            }
            match places::name_at(d, b, count as u64) {
                Err(n) => Err(n),
                Ok((_, e)) => Ok(e),
            }
        }
    }
}

// n entries of d from a place on, and nothing behind them.
fn take_entries(
    pool: &[u8],
    starts: &[u32],
    count: usize,
    d: &[u8],
    from: usize,
    n: u64,
) -> Result<(), Refusal>
    requires { Ready pool.now starts.now × (count ≡ length (strings_of pool.now)) × (from ≤ length d.now) }
    ensures { result ≡ verdict_of (all_entries (strings_of pool.now) n (drop from d.now)) }
{
    let mut order = [0u16; 8449];
    let mut keys: usize = 0;
    let mut at = from;
    let mut left = n;
    while 0 < left {
        let t = take_entry(pool, starts, count, d, at, &mut order, keys);
        match t {
            Err(k) => {
                return Err(k);
            }
            Ok(e) => {
                at = e;
                keys += 1;
                left -= 1;
            }
        }
    }
    if at == d.len() {
        return Ok(());
    }
    Err(Refusal::BadData)
}

// The check of field 3, whose data is d.
pub fn check(pool: &[u8], starts: &[u32], count: usize, d: &[u8]) -> Result<(), Refusal>
    requires { Ready pool.now starts.now × (count ≡ length (strings_of pool.now)) }
    ensures { result ≡ verdict_of (parse_aliases (strings_of pool.now) d.now) }
{
    let (n, a) = places::count_at(d, 0)?;
    take_entries(pool, starts, count, d, a, n)
}
