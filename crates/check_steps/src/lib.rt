// What the whole-file check takes of a whole field, by its ID, and one step of its walk: the frame at a cursor.
#![tactic(auto)]

ghost use Rattle.std.specs.Prelude.{◌≤◌, ◌<◌, length, ◌≡◌};
ghost use Rattle.pool.specs.Index.{room_of};
ghost use Rattle.field_readers.specs.Remembered.{part, TookPool, TookText, Indexed, Ordered, TookZone, TookAliases, TookField, TookLocations, Wide};
ghost use Rattle.field_readers.specs.Flags.{FlagsTaken};
ghost use Rattle.check_steps.specs.Cursor.{Stepped};
ghost use Rattle.check_steps.specs.Room.{room_for};
ghost use Rattle.check_steps.specs.Passed.{passed};
ghost use Rattle.check_steps.specs.Flags.{FlagsStepped};

use base::Refusal;
use extents::Extent;
use field_checks::Conclusion;
use field_readers::Kept;
use frames::Frame;
use locations::LocationField;

// Field 0, whose data go from a to e.
pub fn take_pool(s: &[u8], k: Kept, a: usize, e: usize, index: &mut [u32]) -> Result<Kept, Refusal>
    requires { (a ≤ e) × (e ≤ length s.now) × (room_of (part s.now a e) ≤ length index.old) }
    ensures { TookPool s.now k a e index.old index.new result }
{
    let c = pool::check_pool(&s[a..e], index);
    let n = c?;
    Ok(Kept {
        start: a,
        end: e,
        count: n,
        zones: 0,
        text: k.text,
        len: k.len,
    })
}

// Field 2, whose data go from a to e.
pub fn take_text(s: &[u8], k: Kept, a: usize, e: usize) -> Result<Kept, Refusal>
    requires { (a ≤ e) × (e ≤ length s.now) }
    ensures { TookText s.now k a e result }
{
    let t = texts::read_text(&s[a..e]);
    let (b, n) = t?;
    if b + n != e - a {
        return Err(Refusal::BadData);
    }
    Ok(Kept {
        start: k.start,
        end: k.end,
        count: k.count,
        zones: k.zones,
        text: a + b,
        len: n,
    })
}

// A field 1, whose data go from a to e. Whether they are in their preferred form is looked at where there are flags for it.
pub fn take_zone(
    s: &[u8],
    k: Kept,
    a: usize,
    e: usize,
    index: &[u32],
    order: &mut [u16],
    flags: &mut [u8],
) -> Result<Kept, Refusal>
    requires { (a ≤ e) × (e ≤ length s.now) × Indexed s.now k index.now × Ordered s.now k order.old }
    ensures { TookZone s.now k a e index.now order.old order.new result × FlagsTaken s.now 1 a e flags.old flags.new result }
{
    let v = zone_reads::check_form(&s[a..e], k.count as u64, 0 < flags.len());
    let (id, preferred) = v?;
    let p = k.start;
    let q = k.end;
    if ids::take_string(&s[p..q], index, order, k.zones, id as usize) {
        return Err(Refusal::SecondZone);
    }
    let _ = field_readers::set_flag(flags, id as usize, preferred);
    Ok(Kept {
        start: p,
        end: q,
        count: k.count,
        zones: k.zones + 1,
        text: k.text,
        len: k.len,
    })
}

// Field 3, whose data go from a to e.
fn take_aliases(s: &[u8], k: Kept, a: usize, e: usize, index: &[u32]) -> Result<Kept, Refusal>
    requires { (a ≤ e) × (e ≤ length s.now) × Indexed s.now k index.now }
    ensures { TookAliases s.now k a e index.now result }
{
    let p = k.start;
    let q = k.end;
    match aliases::check(&s[p..q], index, k.count, &s[a..e]) {
        Err(n) => Err(n),
        Ok(()) => Ok(k),
    }
}

// Field 6 or 7, whose data go from a to e.
fn take_locations(
    s: &[u8],
    k: Kept,
    a: usize,
    e: usize,
    field: LocationField,
) -> Result<Kept, Refusal>
    requires { (a ≤ e) × (e ≤ length s.now) }
    ensures { TookLocations s.now k a e field result }
{
    let v = location_reads::check(&s[a..e], field, k.count as u64);
    match v {
        Err(n) => Err(n),
        Ok(()) => Ok(k),
    }
}

// The whole field with the ID i, whose data go from a to e.
pub fn take_field(
    s: &[u8],
    k: Kept,
    i: u8,
    a: usize,
    e: usize,
    index: &mut [u32],
    order: &mut [u16],
    flags: &mut [u8],
) -> Result<Kept, Refusal>
    requires { (a ≤ e) × (e ≤ length s.now) × Indexed s.now k index.old × Ordered s.now k order.old × (i ≡ 0 → room_of (part s.now a e) ≤ length index.old) }
    ensures { TookField s.now k i a e index.old order.old index.new order.new result × FlagsTaken s.now i a e flags.old flags.new result }
{
    if i == 0 {
        return take_pool(s, k, a, e, index);
    }
    if i == 1 {
        return take_zone(s, k, a, e, &*index, order, flags);
    }
    if i == 2 {
        return take_text(s, k, a, e);
    }
    if i == 3 {
        return take_aliases(s, k, a, e, &*index);
    }
    if i == 6 {
        return take_locations(s, k, a, e, LocationField::Zone);
    }
    if i == 7 {
        return take_locations(s, k, a, e, LocationField::Zone1970);
    }
    Ok(k)
}

// A place between frames, the ID of the field before it, and what is remembered. A field came before it where it is past the version's end.
#[derive(Clone, Copy)]
pub struct Cursor {
    pub at: usize,
    pub prev: usize,
    pub kept: Kept,
}

// What a frame comes to.
#[derive(Clone, Copy)]
pub enum Turn {
    Done(Conclusion),
    Next(Cursor),
}

// How many places the arrays need: as many as field 0, which stands behind the version, has strings.
pub fn room(s: &[u8]) -> usize
    ensures { result ≡ room_for s.now }
{
    if s.len() < 4 {
        return 0;
    }
    let at: usize = 4;
    match headers::read_frame(&s[at..], 255, at, false, 0) {
        Frame::End => 0,
        Frame::Cut => 0,
        Frame::Refused(_) => 0,
        Frame::Version => 0,
        Frame::Whole(_, h, n) => {
            let a = at + h;
            let e = at + (h + n);
            pool::room(&s[a..e])
        }
    }
}

// A cursor behind the fields of which nothing is read: behind an ID above 7 there are no others, so their heads are walked over at once.
fn pass(s: &[u8], c: Cursor) -> Cursor
    requires { c.at ≤ length s.now }
    ensures { result ≡ passed s.now c }
{
    let prev = c.prev;
    if prev < 8 {
        return c;
    }
    let from = Extent {
        at: c.at,
        prev: prev,
    };
    let kept = c.kept;
    let x = extents::whole_end(s, from);
    Cursor {
        at: x.at,
        prev: x.prev,
        kept: kept,
    }
}

// The frame at a cursor, and the fields behind it of which nothing is read.
pub fn step(s: &[u8], c: Cursor, index: &mut [u32], order: &mut [u16], flags: &mut [u8]) -> Turn
    requires { (c.at ≤ length s.now) × Indexed s.now c.kept index.old × Ordered s.now c.kept order.old × (0 < c.at → 4 ≤ c.at) × (room_for s.now ≤ length index.old) × Wide index.old order.old }
    ensures { Stepped s.now c index.old order.old index.new order.new result × FlagsStepped s.now c flags.old flags.new result }
{
    let at = c.at;
    let kept = c.kept;
    let f = headers::next_frame(&s[at..], 255, at, 4 < at, c.prev);
    match f {
        Frame::End => Turn::Done(field_readers::conclude(at, kept)),
        Frame::Cut => Turn::Done(Conclusion::Refused(Refusal::CutShort, at)),
        Frame::Refused(n) => Turn::Done(Conclusion::Refused(n, at)),
        Frame::Version => Turn::Next(Cursor {
            at: at + 4,
            prev: 0,
            kept: kept,
        }),
        Frame::Whole(i, h, n) => {
            let e = at + (h + n);
            let t = take_field(s, kept, i, at + h, e, index, order, flags);
            match t {
                Err(m) => Turn::Done(Conclusion::Refused(m, at)),
                Ok(k) => {
                    let d = Cursor {
                        at: e,
                        prev: i as usize,
                        kept: k,
                    };
                    Turn::Next(pass(s, d))
                }
            }
        }
    }
}
