// The mentions in the data of a good zone, counted. The check has read its codes, so they are stepped over by their first bytes.
#![tactic(auto)]

ghost use Rattle.std.specs.Prelude.{◌≡◌, ◌+◌, ◌-◌, ◌*◌, ◌≤◌, ◌<◌, length, get_or};
ghost use Rattle.use_order.specs.Order.{mention_all};
ghost use Rattle.mention_runs.specs.Run.{Room};
ghost use Rattle.counted_zones.specs.Steps.{count_end, moment_end, sum_end, number_at, number_end, list_names, list_end, tail_names, tail_end, body_names, body_end, zone_names, zone_end};
ghost use Rattle.counted_zones.specs.Going.{mention_times, Going, IsFive, IsTick, Pairs, NameCounted};

// The place behind a count.
fn count_end(s: &[u8], at: usize) -> usize
    requires { count_end s.now at ≤ length s.now }
    ensures { result ≡ count_end s.now at }
{
    if s[at] < 128 {
        return at + 1;
    }
    if s[at + 1] < 128 {
        return at + 2;
    }
    if s[at + 2] < 128 {
        return at + 3;
    }
    if s[at + 3] < 128 {
        return at + 4;
    }
    at + 5
}

// The place behind a transition.
fn moment_end(s: &[u8], at: usize) -> usize
    requires { moment_end s.now at ≤ length s.now }
    ensures { result ≡ moment_end s.now at }
{
    if s[at] == 2 {
        return at + 9;
    }
    count_end(s, at)
}

// The place behind an offset.
fn sum_end(s: &[u8], at: usize) -> usize
    requires { sum_end s.now at ≤ length s.now }
    ensures { result ≡ sum_end s.now at }
{
    let b = s[at];
    if b < 128 {
        return at + 1;
    }
    if b < 192 {
        if b < 160 {
            return at + 2;
        }
        return at + 3;
    }
    at + 4
}

// A count of one or two bytes.
fn number_at(s: &[u8], at: usize) -> u64
    requires { number_end s.now at ≤ length s.now }
    ensures { result ≡ number_at s.now at }
{
    let b = s[at] as u64;
    if b < 128 {
        return b;
    }
    b % 128 + 128 * (s[at + 1] as u64)
}

// The place behind it.
fn number_end(s: &[u8], at: usize) -> usize
    requires { number_end s.now at ≤ length s.now }
    ensures { result ≡ number_end s.now at }
{
    if s[at] < 128 {
        return at + 1;
    }
    at + 2
}

// Counts the name at a place; the place behind it.
fn count_name(s: &[u8], at: usize, uses: &mut [u32]) -> usize
    requires { (number_end s.now at ≤ length s.now) × Room uses.old (length s.now - at) }
    ensures { NameCounted s.now at uses.old result uses.new }
{
    let k = number_at(s, at);
    mention_runs::mention(uses, k as usize);
    number_end(s, at)
}

// The number of four bytes, low first.
fn four(a: u8, b: u8, c: u8, d: u8) -> u32
    ensures { result ≡ a + 256 * b + 65536 * c + 16777216 * d }
{
    a as u32 + 256 * (b as u32) + 65536 * (c as u32) + 16777216 * (d as u32)
}

// Whether an interval of five bytes with the name k stands at a place: the top bits of four bytes and the name are told by one test.
fn is_five(s: &[u8], at: usize, k: u32) -> bool
    requires { (at + 5 ≤ length s.now) × (k < 128) }
    ensures { IsFive s.now at k result }
{
    if s[at] < 128 {
        return false;
    }
    let x = four(s[at + 1], s[at + 2], s[at + 3], s[at + 4]);
    x & 2155937664 == 256 * k
}

// How many pairs of intervals of five bytes with the names j and k stand from a place on, at most n.
fn pairs(s: &[u8], at: usize, j: u32, k: u32, n: u64) -> u64
    requires { (at + 10 * n ≤ length s.now) × (j < 128) × (k < 128) }
    ensures { Pairs s.now at j k result × (result ≤ n) }
{
    let mut place = at;
    let mut left = n;
    while 0 < left {
        if !is_five(s, place, j) {
            break;
        }
        if !is_five(s, place + 5, k) {
            break;
        }
        place += 10;
        left -= 1;
    }
    n - left
}

// n uses more of k.
fn mention_times(uses: &mut [u32], k: usize, n: u32)
    requires { get_or uses.old k 0 + n ≤ 4294967295 }
    ensures { uses.new ≡ mention_times k n uses.old }
{
    if k < uses.len() {
        uses[k] = uses[k] + n;
    }
}

// How many pairs there may be among so many intervals in so many bytes.
fn fitting(n: u64, room: usize) -> u64
    ensures { (2 * result ≤ n) × (10 * result ≤ room) }
{
    let k = (room / 10) as u64;
    if n / 2 < k {
        return n / 2;
    }
    k
}

// Before so many intervals.
#[derive(Clone, Copy)]
pub struct Rows {
    pub place: usize,
    pub left: u64,
}

// Counts the names of pairs of intervals of five bytes, the second with the name j, as long as such follow.
fn count_pairs(s: &[u8], at: usize, j: u32, left: u64, uses: &mut [u32]) -> Rows
    requires { (list_end s.now at left ≤ length s.now) × Room uses.old (length s.now - at) × (j < 128) }
    ensures { Going s.now (mention_all (list_names s.now at left) uses.old) (list_end s.now at left) (length uses.old) result.place result.left uses.new × (result.left ≤ left) }
{
    let n = fitting(left, s.len() - at);
    if n == 0 {
        return Rows {
            place: at,
            left: left,
        };
    }
    let k = s[at + 2] as u32;
    if 127 < k {
        return Rows {
            place: at,
            left: left,
        };
    }
    let c = pairs(s, at, k, j, n);
    mention_times(uses, k as usize, c as u32);
    mention_times(uses, j as usize, c as u32);
    Rows {
        place: at + 10 * (c as usize),
        left: left - 2 * c,
    }
}

// Counts the names of intervals of five bytes, as long as such follow.
fn count_fives(s: &[u8], at: usize, left: u64, uses: &mut [u32]) -> Rows
    requires { (list_end s.now at left ≤ length s.now) × Room uses.old (length s.now - at) }
    ensures { Going s.now (mention_all (list_names s.now at left) uses.old) (list_end s.now at left) (length uses.old) result.place result.left uses.new × (result.left ≤ left) }
{
    let mut place = at;
    let mut n = left;
    while 0 < n {
        if s.len() - place < 5 {
            break;
        }
        let j = s[place + 2] as u32;
        if 127 < j {
            break;
        }
        if !is_five(s, place, j) {
            break;
        }
        mention_runs::mention(uses, j as usize);
        let r = count_pairs(s, place + 5, j, n - 1, uses);
        place = r.place;
        n = r.left;
    }
    Rows {
        place: place,
        left: n,
    }
}

// Whether an interval in ticks stands at a place, with a byte each for name and offsets.
fn is_tick(s: &[u8], at: usize) -> bool
    requires { at + 12 ≤ length s.now }
    ensures { IsTick s.now at result }
{
    if s[at] != 2 {
        return false;
    }
    if 127 < s[at + 9] {
        return false;
    }
    if 127 < s[at + 10] {
        return false;
    }
    s[at + 11] < 128
}

// Counts the names of intervals in ticks whose name and offsets take a byte each, as long as such follow.
fn count_ticks(s: &[u8], at: usize, left: u64, uses: &mut [u32]) -> Rows
    requires { (list_end s.now at left ≤ length s.now) × Room uses.old (length s.now - at) }
    ensures { Going s.now (mention_all (list_names s.now at left) uses.old) (list_end s.now at left) (length uses.old) result.place result.left uses.new × (result.left ≤ left) }
{
    let mut place = at;
    let mut n = left;
    while 0 < n {
        if s.len() - place < 12 {
            break;
        }
        if !is_tick(s, place) {
            break;
        }
        mention_runs::mention(uses, s[place + 9] as usize);
        place += 12;
        n -= 1;
    }
    Rows {
        place: place,
        left: n,
    }
}

// Counts the name of an interval; the place behind its savings.
fn count_interval(s: &[u8], at: usize, uses: &mut [u32]) -> usize
    requires { (list_end s.now at 1 ≤ length s.now) × Room uses.old (length s.now - at) }
    ensures { (result ≡ list_end s.now at 1) × (uses.new ≡ mention_all (list_names s.now at 1) uses.old) }
{
    let m = moment_end(s, at);
    let p = count_name(s, m, uses);
    let q = sum_end(s, p);
    sum_end(s, q)
}

// Counts the names of so many intervals; the place behind them.
fn count_intervals(s: &[u8], at: usize, left: u64, uses: &mut [u32]) -> usize
    requires { (list_end s.now at left ≤ length s.now) × Room uses.old (length s.now - at) }
    ensures { (result ≡ list_end s.now at left) × (uses.new ≡ mention_all (list_names s.now at left) uses.old) }
{
    let mut place = at;
    let mut n = left;
    loop {
        let f = count_fives(s, place, n, uses);
        let r = count_ticks(s, f.place, f.left, uses);
        place = r.place;
        n = r.left;
        if n == 0 {
            return place;
        }
        place = count_interval(s, place, uses);
        n -= 1;
    }
}

// Counts the names of a tail, from the tail byte on.
fn count_tail(s: &[u8], at: usize, uses: &mut [u32])
    requires { (tail_end s.now at ≤ length s.now) × Room uses.old (length s.now - at) }
    ensures { uses.new ≡ mention_all (tail_names s.now at) uses.old }
{
    if s[at] != 1 {
        return;
    }
    let n = sum_end(s, at + 1);
    let p = count_name(s, n, uses);
    let month = count_end(s, p + 1);
    let day = count_end(s, month);
    let time = sum_end(s, day);
    count_name(s, time, uses);
}

// Counts the names behind a zone's ID.
fn count_body(s: &[u8], at: usize, uses: &mut [u32])
    requires { (body_end s.now at ≤ length s.now) × Room uses.old (length s.now - at) }
    ensures { uses.new ≡ mention_all (body_names s.now at) uses.old }
{
    let a = at + 1;
    if s[at] == 1 {
        let e = sum_end(s, a);
        if e < s.len() {
            count_name(s, e, uses);
        }
        return;
    }
    let n = number_at(s, a);
    let from = number_end(s, a);
    let at_end = count_intervals(s, from, n, uses);
    let tail = moment_end(s, at_end);
    count_tail(s, tail, uses);
}

// Counts the names of a good zone, its ID first.
pub fn count_zone(s: &[u8], uses: &mut [u32])
    requires { (zone_end s.now ≤ length s.now) × Room uses.old (length s.now) }
    ensures { uses.new ≡ mention_all (zone_names s.now) uses.old }
{
    let at = count_name(s, 0, uses);
    count_body(s, at, uses);
}
