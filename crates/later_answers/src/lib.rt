// The answers of a found zone's intervals behind the first, put in lent room behind it: by a cursor over the zone, so that the time grows with the
// zone and the rows and not with their product.
#![tactic(auto)]

ghost use Rattle.std.specs.Prelude.{◌≡◌, ◌+◌, ◌^◌, ◌≤◌, ◌<◌, length};
ghost use Rattle.std.proofs.lemmas.List.Edits.{sets};
ghost use Rattle.base.specs.Moment.{Finite};
ghost use Rattle.pool.specs.Index.{room_of};
ghost use Rattle.location_lookup.specs.Location.{lent_part, text_in};
ghost use Rattle.answer_tables.specs.Table.{row_of};
ghost use Rattle.later_answers.specs.View.{Indexed, IndexedAs, PutBehind, Walks};

use answers::Found;
use base::END;
use cursors::Cursor;
use found_zones::FoundZone;
use pool::Span;
use zones::ZoneEnd;

// The numbers of an answer, put at a place.
pub fn put_row(x: Found, rows: &mut [i64], at: usize)
    requires { (x.name < 2 ^ 63) × (x.length < 2 ^ 63) × (at + 7 ≤ length rows.old) }
    ensures { rows.new ≡ sets rows.old at (row_of x) }
{
    let wall = x.wall;
    let savings = x.savings;
    let standard = x.standard;
    let name = x.name as i64;
    let length = x.length as i64;
    let start = x.start;
    let end = x.end;
    rows[at] = wall;
    rows[at + 1] = savings;
    rows[at + 2] = standard;
    rows[at + 3] = name;
    rows[at + 4] = length;
    rows[at + 5] = start;
    rows[at + 6] = end;
}

// Whether the pool is well formed. starts gets the index of its strings.
fn index(pool: &[u8], starts: &mut [u32]) -> bool
    requires { room_of pool.now ≤ length starts.old }
    ensures { IndexedAs pool.now starts.old result starts.new }
{
    match pool::check_pool(pool, starts) {
        Ok(_) => true,
        Err(_) => false,
    }
}

// Where the string with the number k lies: by the index, where there is one, since the walk over the strings before it, once for each row, would be
// long in a long pool.
fn name_in(file: &[u8], v: FoundZone, starts: &[u32], indexed: bool, k: u64) -> Span
    requires { Indexed (lent_part file.now v.pool v.past) starts.now indexed × (k < room_of (lent_part file.now v.pool v.past)) }
    ensures { result ≡ text_in file.now v.pool v.past k }
{
    let b = v.pool;
    let c = v.past;
    if indexed {
        let p = strings::span_by(location_lookup::lent(file, b, c), starts, k as usize);
        return Span {
            at: b + p.at,
            len: p.len,
        };
    }
    location_lookup::text_in(file, b, c, k)
}

// The rows behind the first: the next interval starts at e, and the cursor c is at one that starts no later.
fn put_rows(
    file: &[u8],
    v: FoundZone,
    count: u64,
    c: Cursor,
    ending: ZoneEnd,
    start: u64,
    starts: &[u32],
    indexed: bool,
    rows: &mut [i64],
) -> usize
    requires { Walks file.now v count ending c start starts.now indexed rows.old }
    ensures { PutBehind file.now v start rows.old result rows.new }
{
    let zone = location_lookup::lent(file, v.start, v.end);
    let n = rows.len() / 7;
    let mut x = c;
    let mut e = start;
    let mut i = 1;
    while i < n {
        if END <= e {
            return i;
        }
        x = cursor_steps::seek(zone, count, x, ending, e);
        let u = x.held;
        let name = name_in(file, v, starts, indexed, u.name);
        let y = answers::answer_of(name.at, name.len, u);
        put_row(y, rows, 7 * i);
        e = u.end;
        i += 1;
    }
    i
}

// The rows behind the first, which ends at e.
fn list_with(file: &[u8], v: FoundZone, e: u64, starts: &mut [u32], rows: &mut [i64]) -> usize
    requires { Finite e × (7 ≤ length rows.old) × (room_of (lent_part file.now v.pool v.past) ≤ length starts.old) }
    ensures { PutBehind file.now v e rows.old result rows.new }
{
    let pool = location_lookup::lent(file, v.pool, v.past);
    let count = pool::room(pool) as u64;
    let zone = location_lookup::lent(file, v.start, v.end);
    match listed_cursors::first(zone, count) {
        Err(_) => 1,
        Ok((c, ending)) => {
            let indexed = index(pool, starts);
            put_rows(file, v, count, c, ending, e, &*starts, indexed, rows)
        }
    }
}

// The same with an index of its own, for a pool of few strings: a short index is cleared at once.
fn list_short(file: &[u8], v: FoundZone, e: u64, rows: &mut [i64]) -> usize
    requires { Finite e × (7 ≤ length rows.old) × (room_of (lent_part file.now v.pool v.past) ≤ 256) }
    ensures { PutBehind file.now v e rows.old result rows.new }
{
    let mut starts = [0u32; 256];
    list_with(file, v, e, &mut starts, rows)
}

// The same for every pool.
fn list_long(file: &[u8], v: FoundZone, e: u64, rows: &mut [i64]) -> usize
    requires { Finite e × (7 ≤ length rows.old) }
    ensures { PutBehind file.now v e rows.old result rows.new }
{
    let mut starts = [0u32; 8192];
    list_with(file, v, e, &mut starts, rows)
}

// The rows behind the first, which ends at e.
pub fn list_behind(file: &[u8], v: FoundZone, e: u64, rows: &mut [i64]) -> usize
    requires { Finite e × (7 ≤ length rows.old) }
    ensures { PutBehind file.now v e rows.old result rows.new }
{
    if pool::room(location_lookup::lent(file, v.pool, v.past)) <= 256 {
        return list_short(file, v, e, rows);
    }
    list_long(file, v, e, rows)
}
