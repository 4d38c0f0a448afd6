// One record of a phone's trace. The zone found for its name is kept, so that the file isn't walked over again for another record of that name.
// The zones that were passed on the way to it are kept, too: the walk to a further zone goes on where the last one stopped, so that no zone is checked
// twice. The numbers of their IDs stand in the order of the IDs' bytes, and by these numbers the places of each first zone of an ID.
#![tactic(auto)]

ghost use Rattle.std.specs.Prelude.{◌≡◌, false, ◌≤◌, ◌<◌, ◌+◌, length, Ok};
ghost use Rattle.pool.specs.Pool.{strings_of};
ghost use Rattle.pool.specs.Index.{Ready};
ghost use Rattle.locate.specs.View.{part, Lies};
ghost use Rattle.ids.specs.Ids.{among};
ghost use Rattle.ids.specs.Memory.{texts_of};
ghost use Rattle.trace_records.specs.Passed.{NextIs, PassedOk, ReachedAs};
ghost use Rattle.base.specs.Moment.{Finite};
ghost use Rattle.found_zones.specs.FoundZone.{FindsZone};
ghost use Rattle.traces.specs.Trace.{name_start, name_length, name_at};
ghost use Rattle.trace_records.specs.Record.{same_as, agrees};
ghost use Rattle.trace_records.specs.Kept.{name_by, kept_zone, with_offset, KeptAs, OffsetAt, KeptOk, HasName, StillAgrees, Takes, TakesZone};

use found_zones::FoundZone;
use frames::Frame;
use ids::Gap;
use zones::Edition;

// The place behind the last zone that was passed, the ID of its field, and how many IDs were seen.
#[derive(Clone, Copy)]
pub struct PassedZones {
    pub at: usize,
    pub prev: usize,
    pub ids: usize,
}

// Where the data of the asked zone start and end, and the zones passed then. An end of 0 is no zone: the walk is refused or finds none.
#[derive(Clone, Copy)]
pub struct ReachedZone {
    pub start: usize,
    pub end: usize,
    pub passed: PassedZones,
}

// The zone at a place behind a field with the ID prev: the field's ID, where its data start and end, and the number of its own ID.
// Or the walk ends there.
fn read_next(s: &[u8], count: usize, at: usize, prev: usize) -> Option<(usize, usize, usize, usize)>
    requires { (0 < at) × (at ≤ length s.now) }
    ensures { NextIs s.now count at prev result }
{
    let f = headers::read_frame(&s[at..], 1, at, true, prev);
    match f {
        Frame::End => None,
        Frame::Cut => None,
        Frame::Refused(_) => None,
        // The version stands at place 0 only.
        Frame::Version => None,
        Frame::Whole(i, h, n) => {
            let a = at + h;
            let b = a + n;
            match zone_reads::check(&s[a..b], count as u64) {
                Err(_) => None,
                Ok(k) => Some((i as usize, a, b, k as usize)),
            }
        }
    }
}

// On to the zone with the bytes id, which is none of those passed. The data of field 0 are s[d..e].
fn walk_on(
    s: &[u8],
    starts: &[u32],
    d: usize,
    e: usize,
    count: usize,
    id: &[u8],
    order: &mut [u16],
    froms: &mut [u32; 8192],
    tos: &mut [u32; 8192],
    p: PassedZones,
) -> ReachedZone
    requires { Lies s.now d e × Ready (part d e s.now) starts.now × (count ≡ length (strings_of (part d e s.now))) × PassedOk s.now d e order.old froms.old tos.old p × (among id.now (texts_of (strings_of (part d e s.now)) order.old p.ids) ≡ false) }
    ensures { ReachedAs s.now d e id.now order.new froms.new tos.new result }
{
    let mut at = p.at;
    let mut prev = p.prev;
    let mut n = p.ids;
    loop {
        match read_next(s, count, at, prev) {
            None => {
                return ReachedZone {
                    start: 0,
                    end: 0,
                    passed: p,
                };
            }
            Some((i, a, b, k)) => {
                match ids::find_gap(
                    &s[d..e],
                    starts,
                    &*order,
                    n,
                    strings::text_by(&s[d..e], starts, k),
                ) {
                    Gap::Known(_) => {
                        at = b;
                        prev = i;
                    }
                    Gap::New(m, q) => {
                        ids::put(order, n, m, q, k as u16);
                        froms[k] = a as u32;
                        tos[k] = b as u32;
                        n += 1;
                        if strings::has_id(&s[d..e], starts, k, id) {
                            return ReachedZone {
                                start: a,
                                end: b,
                                passed: PassedZones {
                                    at: b,
                                    prev: i,
                                    ids: n,
                                },
                            };
                        }
                        at = b;
                        prev = i;
                    }
                }
            }
        }
    }
}

// The zone with the bytes id: one of those passed, or one further on.
pub fn reach(
    s: &[u8],
    starts: &[u32],
    d: usize,
    e: usize,
    count: usize,
    id: &[u8],
    order: &mut [u16],
    froms: &mut [u32; 8192],
    tos: &mut [u32; 8192],
    p: PassedZones,
) -> ReachedZone
    requires { Lies s.now d e × Ready (part d e s.now) starts.now × (count ≡ length (strings_of (part d e s.now))) × PassedOk s.now d e order.old froms.old tos.old p }
    ensures { ReachedAs s.now d e id.now order.new froms.new tos.new result }
{
    match ids::find_gap(&s[d..e], starts, &*order, p.ids, id) {
        Gap::Known(k) => ReachedZone {
            start: froms[k] as usize,
            end: tos[k] as usize,
            passed: p,
        },
        Gap::New(_, _) => walk_on(s, starts, d, e, count, id, order, froms, tos, p),
    }
}

// The zone found for a name: where the name starts among the names and its length, and where the data of field 0 and those of the zone start and
// end in the file. An end of 0 is no zone. With it the last wall offset that it gave, at each instant of `from` to before `to`.
#[derive(Clone, Copy)]
pub struct Kept {
    pub name: u32,
    pub len: u32,
    pub pool: u32,
    pub past: u32,
    pub start: u32,
    pub end: u32,
    pub from: u64,
    pub to: u64,
    pub wall: i64,
}

// A wall offset, at each instant of `from` to before `to`; of none, where both are 0.
#[derive(Clone, Copy)]
pub struct Lasting {
    pub from: u64,
    pub to: u64,
    pub wall: i64,
}

// Whether a record agrees with the file, and the zone kept for its name.
#[derive(Clone, Copy)]
pub struct Taken {
    pub agrees: bool,
    pub kept: Kept,
}

fn same(a: i64, b: i64) -> bool
    ensures { result ≡ same_as a b }
{
    if a < b {
        return false;
    }
    if b < a {
        return false;
    }
    true
}

// The wall offset that the question on a found zone gives at an instant; none where it is refused. The interval's name isn't looked for.
fn offset_at(f: &[u8], v: FoundZone, t: u64) -> Lasting
    requires { Finite t }
    ensures { OffsetAt f.now v t result }
{
    let count = pool::room(location_lookup::lent(f, v.pool, v.past));
    let zone = location_lookup::lent(f, v.start, v.end);
    match zone_lookups::find(zone, count as u64, t, Edition::Two) {
        Err(_) => Lasting {
            from: 0,
            to: 0,
            wall: 0,
        },
        Ok(x) => Lasting {
            from: x.start,
            to: x.end,
            wall: signed::milliseconds(x.wall),
        },
    }
}

pub fn none_kept() -> Kept
    ensures { result.end ≡ 0 }
{
    Kept {
        name: 0,
        len: 0,
        pool: 0,
        past: 0,
        start: 0,
        end: 0,
        from: 0,
        to: 0,
        wall: 0,
    }
}

fn kept_zone(k: Kept) -> FoundZone
    ensures { result ≡ kept_zone k }
{
    FoundZone {
        pool: k.pool as usize,
        past: k.past as usize,
        start: k.start as usize,
        end: k.end as usize,
        place: 0,
    }
}

// A found zone is kept if its places have 32 bits, as those in every file do.
fn kept_by(name: u64, len: u64, v: FoundZone) -> Kept
    requires { (name < 4294967296) × (len < 4294967296) }
    ensures { KeptAs name len v result }
{
    if 4294967295 < v.pool {
        return none_kept();
    }
    if 4294967295 < v.past {
        return none_kept();
    }
    if 4294967295 < v.start {
        return none_kept();
    }
    if 4294967295 < v.end {
        return none_kept();
    }
    Kept {
        name: name as u32,
        len: len as u32,
        pool: v.pool as u32,
        past: v.past as u32,
        start: v.start as u32,
        end: v.end as u32,
        from: 0,
        to: 0,
        wall: 0,
    }
}

// The kept zone with another offset.
fn with_offset(k: Kept, x: Lasting) -> Kept
    ensures { result ≡ with_offset k x }
{
    Kept {
        name: k.name,
        len: k.len,
        pool: k.pool,
        past: k.past,
        start: k.start,
        end: k.end,
        from: x.from,
        to: x.to,
        wall: x.wall,
    }
}

// A record of the zone v, which k is kept for, by its instant and the offset shown.
fn take_zone(f: &[u8], v: FoundZone, k: Kept, t: u64, shown: i64) -> Taken
    requires { Finite t }
    ensures { TakesZone f.now v k t shown result }
{
    let x = offset_at(f, v, t);
    let new = with_offset(k, x);
    if t < x.to {
        let b = same(x.wall, shown);
        return Taken {
            agrees: b,
            kept: new,
        };
    }
    Taken {
        agrees: false,
        kept: new,
    }
}

// Whether a zone is kept for the name of the record at a place of the trace s, whose names stand at `names`.
pub fn has_name(s: &[u8], names: usize, at: usize, k: Kept) -> bool
    requires { (at + 20 ≤ length s.now) × (names + (name_start at s.now + name_length at s.now) ≤ length s.now) × (0 < k.end → names + (k.name + k.len) ≤ length s.now) }
    ensures { HasName names s.now at k result }
{
    if k.end == 0 {
        return false;
    }
    let len = count_readers::four_at(s, at + 12);
    if k.len as u64 != len {
        return false;
    }
    let start = count_readers::four_at(s, at + 8);
    if k.name as u64 == start {
        return true;
    }
    let a = names + k.name as usize;
    let b = names + start as usize;
    let c = a + len as usize;
    let d = b + len as usize;
    strings::same(&s[a..c], &s[b..d])
}

// Whether the record at a place has the name that a zone is kept for and shows the offset that is kept, at one of its instants. It agrees then.
pub fn still_agrees(s: &[u8], names: usize, at: usize, k: Kept) -> bool
    requires { (at + 20 ≤ length s.now) × (names + (name_start at s.now + name_length at s.now) ≤ length s.now) × (0 < k.end → names + (k.name + k.len) ≤ length s.now) }
    ensures { StillAgrees names s.now at k result }
{
    let instant = traces::signed_eight_at(s, at);
    let t = signed::instant(instant);
    if t == 0 {
        return false;
    }
    if t < k.from {
        return false;
    }
    if k.to <= t {
        return false;
    }
    let shown = traces::signed_four_at(s, at + 16);
    if same(k.wall, shown) {
        return has_name(s, names, at, k);
    }
    false
}

// The record at a place, of the zone kept for its name.
pub fn take_same(f: &[u8], s: &[u8], names: usize, at: usize, k: Kept) -> Taken
    requires { (at + 20 ≤ length s.now) × (0 < k.end) × (name_by names k.name k.len s.now ≡ name_at names at s.now) × KeptOk f.now names s.now k }
    ensures { Takes f.now names s.now (agrees f.now names s.now at) result }
{
    let instant = traces::signed_eight_at(s, at);
    let t = signed::instant(instant);
    if t == 0 {
        return Taken {
            agrees: false,
            kept: k,
        };
    }
    let shown = traces::signed_four_at(s, at + 16);
    if t < k.to {
        if k.from <= t {
            let b = same(k.wall, shown);
            return Taken { agrees: b, kept: k };
        }
    }
    let v = kept_zone(k);
    take_zone(f, v, k, t, shown)
}

// The record at a place, of the zone v, which was found for its name.
pub fn take_found(f: &[u8], s: &[u8], names: usize, at: usize, v: FoundZone) -> Taken
    requires { (at + 20 ≤ length s.now) × (names + (name_start at s.now + name_length at s.now) ≤ length s.now) × FindsZone f.now (name_at names at s.now) (Ok v) }
    ensures { Takes f.now names s.now (agrees f.now names s.now at) result }
{
    let instant = traces::signed_eight_at(s, at);
    let t = signed::instant(instant);
    if t == 0 {
        let none = none_kept();
        return Taken {
            agrees: false,
            kept: none,
        };
    }
    let shown = traces::signed_four_at(s, at + 16);
    let start = count_readers::four_at(s, at + 8);
    let len = count_readers::four_at(s, at + 12);
    let k = kept_by(start, len, v);
    take_zone(f, v, k, t, shown)
}
