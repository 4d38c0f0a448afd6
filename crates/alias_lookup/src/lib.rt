// The lookup of a name in the alias dictionary: a zone's ID, or what the target of a key leads to.
#![tactic(auto)]

ghost use Rattle.std.specs.Prelude.{◌≡◌, ◌≤◌, length};
ghost use Rattle.pool.specs.Pool.{strings_of};
ghost use Rattle.pool.specs.Index.{Ready};
ghost use Rattle.aliases.specs.Dictionary.{target_of};
ghost use Rattle.aliases.specs.Field.{entries_of};
ghost use Rattle.alias_lookup.specs.Lookup.{by_test};
ghost use Rattle.alias_lookup.specs.View.{flagged, Sound, Listed, Points, Resolves};

// What a name leads to: a zone's ID, by its pool number; what is neither a zone's ID nor a key; a key where no step is left.
#[derive(Clone, Copy)]
pub enum Target {
    Zone(usize),
    Unknown,
    Deep,
}

// The target of the key id, by its pool number, among n entries of d from a place on.
fn find_in(
    pool: &[u8],
    starts: &[u32],
    count: usize,
    d: &[u8],
    from: usize,
    n: u64,
    id: &[u8],
) -> Option<usize>
    requires { Ready pool.now starts.now × (count ≡ length (strings_of pool.now)) × Listed (strings_of pool.now) d.now from n }
    ensures { Points (strings_of pool.now) (target_of (entries_of (strings_of pool.now) d.now) id.now) result }
{
    let mut at = from;
    let mut left = n;
    while 0 < left {
        let Ok((k, b)) = places::name_at(d, at, count as u64) else {
            return None;
        };
        let Ok((t, e)) = places::name_at(d, b, count as u64) else {
            return None;
        };
        if strings::has_id(pool, starts, k as usize, id) {
            return Some(t as usize);
        }
        at = e;
        left -= 1;
    }
    None
}

// The target of the key id, by its pool number.
fn find_target(pool: &[u8], starts: &[u32], count: usize, d: &[u8], id: &[u8]) -> Option<usize>
    requires { Ready pool.now starts.now × (count ≡ length (strings_of pool.now)) × Sound (strings_of pool.now) d.now }
    ensures { Points (strings_of pool.now) (target_of (entries_of (strings_of pool.now) d.now) id.now) result }
{
    match places::count_at(d, 0) {
        Err(_) => None,
        Ok((n, a)) => find_in(pool, starts, count, d, a, n, id),
    }
}

// The zone with the ID id, by the number of a string: those with a flag are the IDs of zones.
fn find_zone(pool: &[u8], starts: &[u32], count: usize, zones: &[u8], id: &[u8]) -> Option<usize>
    requires { Ready pool.now starts.now × (count ≡ length (strings_of pool.now)) × (count ≤ length zones.now) }
    ensures { Points (strings_of pool.now) (by_test (flagged (strings_of pool.now) zones.now) id.now) result }
{
    let mut j: usize = 0;
    while j < count {
        if zones[j] != 0 {
            if strings::has_id(pool, starts, j, id) {
                return Some(j);
            }
        }
        j += 1;
    }
    None
}

// What the name id leads to, with some steps left: the zone with that ID, or what the target of that key leads to with one step fewer.
pub fn lookup(
    pool: &[u8],
    starts: &[u32],
    count: usize,
    d: &[u8],
    zones: &[u8],
    id: &[u8],
    left: u64,
) -> Target
    requires { Ready pool.now starts.now × (count ≡ length (strings_of pool.now)) × Sound (strings_of pool.now) d.now × (count ≤ length zones.now) }
    ensures { Resolves (strings_of pool.now) zones.now (entries_of (strings_of pool.now) d.now) left id.now result }
{
    match find_zone(pool, starts, count, zones, id) {
        Some(k) => Target::Zone(k),
        None => match find_target(pool, starts, count, d, id) {
            None => Target::Unknown,
            Some(k) => {
                if left == 0 {
                    return Target::Deep;
                }
                lookup(
                    pool,
                    starts,
                    count,
                    d,
                    zones,
                    strings::text_by(pool, starts, k),
                    left - 1,
                )
            }
        },
    }
}
