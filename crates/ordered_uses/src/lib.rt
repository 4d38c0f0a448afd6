// The used pool numbers in order, the most used first, ties by number; and the place of each in that order.
#![tactic(auto)]

ghost use Rattle.std.specs.Prelude.{◌≡◌, ◌≤◌, ◌<◌, length, set};
ghost use Rattle.use_order.specs.Order.{numbers_of, numbered_from};
ghost use Rattle.use_order.specs.Fill.{Put, Filled, Ordered};

// The key of a used number behind n keys; how many there are then.
fn put(keys: &mut [u64], n: usize, u: u32, k: usize) -> usize
    requires n_in_bounds { n < length keys.old }
    requires k_bound { k < 8192 }
    ensures { Put u k n keys.old result keys.new }
{
    if u == 0 {
        return n;
    }
    keys[n] = ((4294967295 - u) as u64) * 8192 + k as u64;
    n + 1
}

// The keys of the used numbers, in the order of the numbers; how many there are.
fn filled(uses: &[u32], keys: &mut [u64]) -> usize
    requires uses_in_bounds { length uses.now ≤ length keys.old }
    requires uses_len_bound { length uses.now ≤ 8192 }
    ensures { Filled uses.now keys.old result keys.new }
{
    let mut n = 0;
    for (i, &count) in uses.iter().enumerate() {
        n = put(keys, n, count, i);
    }
    n
}

// The numbers of keys.
fn numbered(keys: &mut [u64])
    ensures { keys.new ≡ numbers_of keys.old }
{
    for key in keys.iter_mut() {
        *key %= 8192;
    }
}

// The used numbers, the most used first, ties by number; how many there are.
pub fn ordered(uses: &[u32], order: &mut [u64], room: &mut [u64]) -> usize
    requires uses_len_bound { length uses.now ≤ 8192 }
    requires order_len { length order.old ≡ 8192 }
    requires room_len { length room.old ≡ 8192 }
    ensures { Ordered uses.now order.old result order.new }
{
    let n = filled(uses, order);
    merge_sort::sort(&mut order[..n], &mut room[..n]);
    numbered(&mut order[..n]);
    n
}

// Stores v at the place k, where there is such a place.
pub fn store(numbers: &mut [u32], k: usize, v: u32)
    ensures { numbers.new ≡ set numbers.old k v }
{
    if k < numbers.len() {
        numbers[k] = v;
    }
}

// The new number of each number in the order: its place there.
pub fn number(order: &[u64], numbers: &mut [u32])
    requires { length order.now ≤ 8192 }
    ensures { numbers.new ≡ numbered_from 0 order.now numbers.old }
{
    for (i, &k) in order.iter().enumerate() {
        store(numbers, k as usize, i as u32);
    }
}
