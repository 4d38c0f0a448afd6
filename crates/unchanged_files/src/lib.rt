// The mentions of all fields counted, and whether a file is its own closed file: its uses descend, all its strings are used, and its sizes are in the
// shortest form.
#![tactic(auto)]

ghost use Rattle.std.specs.Prelude.{◌≡◌, ◌≤◌, length};
ghost use Rattle.pool.specs.Pool.{strings_of};
ghost use Rattle.renumbering.specs.Table.{Fits};
ghost use Rattle.closed_pools.specs.View.{GoodPool};
ghost use Rattle.closed_fields.specs.View.{PoolChecked};
ghost use Rattle.closed_walks.specs.View.{Walkable};
ghost use Rattle.unchanged_files.specs.View.{NotBelow, DescendsWhere, LastUsed, UsedUpTo, ClosedWhere, FirstStrings, PlainField, Walks};

// 0 where a number isn't below the next, and none was before.
fn below(a: u32, b: u32, bad: u32) -> u32
    ensures { NotBelow a b bad result }
{
    if a < b {
        return 1;
    }
    bad
}

// Whether no use is above the one before it. All are looked at, which the compiler turns into wide operations.
fn descends(uses: &[u32]) -> bool
    ensures { DescendsWhere result uses.now }
{
    let mut i: usize = 1;
    let mut bad: u32 = 0;
    while i < uses.len() {
        bad = below(uses[i - 1], uses[i], bad);
        i += 1;
    }
    if bad == 0 {
        return true;
    }
    false
}

// Whether the last of n uses is some.
fn last_used(uses: &[u32], n: usize) -> bool
    requires { n ≤ length uses.now }
    ensures { LastUsed result uses.now n }
{
    if n == 0 {
        return true;
    }
    if uses[n - 1] == 0 {
        return false;
    }
    true
}

// Whether uses that descend are some up to n and none from there on.
fn used_up_to(uses: &[u32], n: usize) -> bool
    ensures { UsedUpTo result uses.now n }
{
    if uses.len() < n {
        return false;
    }
    if n < uses.len() {
        if uses[n] != 0 {
            return false;
        }
        return last_used(uses, n);
    }
    last_used(uses, n)
}

// How many strings a pool has.
fn string_count(d: &[u8]) -> usize
    requires { GoodPool d.now }
    ensures { result ≡ length (strings_of d.now) }
{
    let g = count_readers::read_count(d);
    match g {
        Err(_) => 0,
        Ok((v, _)) => v as usize,
    }
}

// How many strings the pool behind the version has.
pub fn first_strings(s: &[u8]) -> usize
    requires { Walkable s.now }
    ensures { FirstStrings s.now result }
{
    if s.len() <= 4 {
        return 0;
    }
    let f = sizes::read_field(s, 4);
    if f.id != 0 {
        return 0;
    }
    let a = f.start;
    let e = f.end;
    string_count(&s[a..e])
}

// Whether a field behind plain ones has a head of the shortest form, of h bytes, and, where it is a pool, so many strings.
fn is_plain(before: bool, i: u8, h: usize, d: &[u8], strings: usize) -> bool
    requires { PoolChecked i d.now }
    ensures { PlainField result before i h d.now strings }
{
    if !before {
        return false;
    }
    if h != 1 + count_writers::count_size(d.len() as u64) {
        return false;
    }
    if i != 0 {
        return true;
    }
    let n = string_count(d);
    n == strings
}

// The place of the first field that isn't read; or that mentions are counted, and whether all fields are plain.
#[derive(Clone, Copy)]
pub enum Walked {
    Unread(usize),
    Counted(bool),
}

// Counts the mentions of all fields, up to one that isn't read.
pub fn count_mentions(s: &[u8], strings: usize, uses: &mut [u32]) -> Walked
    requires { Walkable s.now × Fits uses.old (length s.now) }
    ensures { Walks s.now strings uses.old uses.new result }
{
    let mut at: usize = 4;
    let mut plain = true;
    while at < s.len() {
        let f = sizes::read_field(s, at);
        let i = f.id;
        if closed_walks::is_unread(i) {
            return Walked::Unread(at);
        }
        let a = f.start;
        let e = f.end;
        plain = is_plain(plain, i, a - at, &s[a..e], strings);
        closed_walks::count_field(i, &s[a..e], uses);
        at = e;
    }
    Walked::Counted(plain)
}

// Whether a file of so many strings is its own closed file, by its uses.
pub fn is_closed(plain: bool, uses: &[u32], strings: usize) -> bool
    ensures { ClosedWhere result plain uses.now strings }
{
    if !plain {
        return false;
    }
    if descends(uses) {
        return used_up_to(uses, strings);
    }
    false
}
