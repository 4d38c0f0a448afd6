// The strings of a pool seen so far: their numbers in one array, in the order of the strings' bytes. A string that comes behind the last
// of them, as the strings of most files do, is found new by one comparison, and its number goes to the end of the main list. Any other's
// number goes to a buffer of 128, with the place of the main list where it belongs; a full buffer is merged into the main list. So at most
// 127 numbers and their places are moved for a string, and all numbers once for 128 strings. Both places are found by halving: first the one
// in the buffer, whose neighbours there say between which places of the main list the other one is.
#![tactic(auto)]

ghost use Rattle.std.specs.Prelude.{◌≡◌, [], ◌+◌, ◌-◌, ◌≤◌, ◌<◌, length, get_or};
ghost use Rattle.pool.specs.Pool.{strings_of};
ghost use Rattle.pool.specs.Index.{Ready};
ghost use Rattle.ids.specs.Layout.{buffer_size, Placed, Fits, low_of, high_of};
ghost use Rattle.ids.specs.Parts.{Run, Located, Shifted, Inserted, Buffered, Merged};
ghost use Rattle.ids.specs.Memory.{Roomy, Sorted, Finds, Added, Taken};

use std::cmp::Ordering;

// What looking for a string in a part of the array gives: it was seen, with its number, or the place where its number belongs.
#[derive(Clone, Copy)]
pub enum Place {
    Seen(usize),
    Free(usize),
}

// What looking for a string gives: it is known, with its number, or new; then its number belongs behind so many of the main list and so many
// of the buffer.
#[derive(Clone, Copy)]
pub enum Gap {
    Known(usize),
    New(usize, usize),
}

// Looks for id among the strings whose numbers stand from a place on up to another. The last is compared first.
fn find(pool: &[u8], starts: &[u32], order: &[u16], from: usize, to: usize, id: &[u8]) -> Place
    requires { Ready pool.now starts.now × Run (strings_of pool.now) order.now from to }
    ensures { Located (strings_of pool.now) order.now from to id.now result }
{
    let mut lo = from;
    let mut hi = to;
    let mut back: usize = 1;
    while lo < hi {
        let mid = hi - back;
        let j = order[mid] as usize;
        // Passed on as a part, which copies place and length one by one: both at once would wait for the stores of the caller.
        let o = string_order::compare(strings::text_by(pool, starts, j), &id[0..]);
        match o {
            Ordering::Equal => {
                return Place::Seen(j);
            }
            Ordering::Less => {
                lo = mid + 1;
                back = (hi - lo + 1) / 2;
            }
            Ordering::Greater => {
                hi = mid;
                back = (hi - lo + 1) / 2;
            }
        }
    }
    Place::Free(lo)
}

// The first place of the main list behind the number before the place j of the buffer.
pub fn low(order: &[u16], j: usize) -> usize
    requires { (257 ≤ length order.now) × (j ≤ 128) × (low_of order.now j ≤ 8192) }
    ensures { result ≡ low_of order.now j }
{
    if j == 0 {
        return 0;
    }
    order[127 + j] as usize
}

// The end of those before the number at the place j of the buffer's b; m is the end of the main list.
pub fn high(order: &[u16], m: usize, b: usize, j: usize) -> usize
    requires { (257 ≤ length order.now) × (j ≤ b) × (b ≤ 128) × (high_of order.now m b j ≤ 8192) }
    ensures { result ≡ high_of order.now m b j }
{
    if j == b {
        return m;
    }
    order[128 + j] as usize
}

// Looks for id among the strings of the main list between two of the buffer.
fn find_between(pool: &[u8], starts: &[u32], order: &[u16], n: usize, j: usize, id: &[u8]) -> Place
    requires { Ready pool.now starts.now × Sorted (strings_of pool.now) order.now n × (j ≤ buffer_size order.now) }
    ensures { Located (strings_of pool.now) order.now (257 + low_of order.now j) (257 + high_of order.now (n - buffer_size order.now) (buffer_size order.now) j) id.now result }
{
    let b = order[256] as usize;
    find(
        pool,
        starts,
        order,
        257 + low(order, j),
        257 + high(order, n - b, b, j),
        id,
    )
}

// Looks for id among the n strings.
pub fn find_gap(pool: &[u8], starts: &[u32], order: &[u16], n: usize, id: &[u8]) -> Gap
    requires { Ready pool.now starts.now × Sorted (strings_of pool.now) order.now n }
    ensures { Finds (strings_of pool.now) order.now n id.now result }
{
    let b = order[256] as usize;
    let p = find(pool, starts, order, 0, b, id);
    match p {
        Place::Seen(k) => Gap::Known(k),
        Place::Free(q) => {
            let g = find_between(pool, starts, order, n, q, id);
            match g {
                Place::Seen(k) => Gap::Known(k),
                Place::Free(i) => Gap::New(i - 257, q),
            }
        }
    }
}

// Moves what stands from a place on up to another up by so many places.
fn shift(order: &mut [u16], from: usize, to: usize, many: usize)
    requires { (from ≤ to) × (to + many ≤ length order.old) × (to + many ≤ 8449) }
    ensures { Shifted order.old from to many order.new }
{
    let mut i = to;
    while from < i {
        i -= 1;
        order[i + many] = order[i];
    }
}

// Puts k at a place; what stands from there up to n moves up by one.
fn insert(order: &mut [u16], n: usize, at: usize, k: u16)
    requires { (at ≤ n) × (n < length order.old) × (n < 8449) }
    ensures { Inserted order.old n at k order.new }
{
    shift(order, at, n, 1);
    order[at] = k;
}

// Puts k into the buffer of b at the place j, behind i of the main list.
fn put_in_buffer(order: &mut [u16], b: usize, i: u16, j: usize, k: u16)
    requires { (257 ≤ length order.old) × (b < 128) × (j ≤ b) }
    ensures { Buffered order.old b i j k order.new }
{
    insert(order, b, j, k);
    insert(order, 128 + b, 128 + j, i);
    order[256] = (b + 1) as u16;
}

// Merges the buffer of b into the main list of m, from the last number of both on.
fn merge(order: &mut [u16], m: usize, b: usize)
    requires { (m + b + 257 ≤ length order.old) × Placed order.old (m + b) b × (m + b ≤ 8192) }
    ensures { Merged order.old (m + b) b order.new }
{
    let mut left = b;
    let mut to = m;
    while 0 < left {
        let j = left - 1;
        let from = order[128 + j] as usize;
        shift(order, 257 + from, 257 + to, left);
        order[257 + (from + j)] = order[j];
        to = from;
        left = j;
    }
    order[256] = 0;
}

// Puts k among the n numbers, behind i of the main list and j of the buffer.
pub fn put(order: &mut [u16], n: usize, i: usize, j: usize, k: u16)
    requires { Roomy order.old n × Fits order.old n i j × (n < 8192) × (n + 257 < length order.old) }
    ensures { Added order.old n (i + j) k order.new }
{
    let b = order[256] as usize;
    if b == 0 {
        if i == n {
            order[257 + n] = k;
            return;
        }
    }
    put_in_buffer(order, b, i as u16, j, k);
    if b == 127 {
        merge(order, n - b, 128);
    }
}

// Whether the k-th string is among the n whose numbers the array holds; if not, its number is put among them.
pub fn take_string(pool: &[u8], starts: &[u32], order: &mut [u16], n: usize, k: usize) -> bool
    requires { Ready pool.now starts.now × Sorted (strings_of pool.now) order.old n × (k < length (strings_of pool.now)) }
    ensures { Taken (strings_of pool.now) (get_or (strings_of pool.now) k []) order.old n order.new result }
{
    let g = find_gap(pool, starts, &*order, n, strings::text_by(pool, starts, k));
    match g {
        Gap::Known(_) => true,
        Gap::New(i, j) => {
            put(order, n, i, j, k as u16);
            false
        }
    }
}
