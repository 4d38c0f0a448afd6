// A zone up to its intervals, which every reader of a zone starts with. Nothing is copied.
#![tactic(auto)]

ghost use Rattle.std.specs.Prelude.{◌≤◌, ◌≡◌, [], length, drop};
ghost use Rattle.base.specs.Parsed.{got, bind, parse};
ghost use Rattle.counts.specs.Count.{read_count};
ghost use Rattle.pieces.specs.Content.{parse_head, after_count as head_count};
ghost use Rattle.zones.specs.Parse.{parse_fixed, parse_listed, parse_zone};
ghost use Rattle.zones.specs.View.{FrontOf};
ghost use Rattle.zone_fronts.specs.Short.{short_id, IdSize, ShortPlace};

use base::Refusal;
use zones::ZoneFront;

// A fixed zone whose data end behind its offset has its ID for its name.
fn read_fixed(s: &[u8], at: usize, pool: u64, id: u64) -> ZoneFront
    requires { at ≤ length s.now }
    ensures { FrontOf pool s.now (parse_fixed pool id (drop at s.now)) (got 0 []) result }
{
    match places::sum_at(s, at) {
        Err(k) => ZoneFront::Refused(k),
        Ok((offset, a)) => {
            if a == s.len() {
                return ZoneFront::Fixed(id, offset, id);
            }
            match places::name_at(s, a, pool) {
                Err(k) => ZoneFront::Refused(k),
                Ok((n, e)) => {
                    if e < s.len() {
                        return ZoneFront::Refused(Refusal::BadData);
                    }
                    ZoneFront::Fixed(id, offset, n)
                }
            }
        }
    }
}

// The interval count.
fn read_interval_count(s: &[u8], at: usize, pool: u64, id: u64) -> ZoneFront
    requires { at ≤ length s.now }
    ensures { FrontOf pool s.now (parse_listed pool id (drop at s.now)) (bind (parse read_count (drop at s.now)) head_count) result }
{
    match places::count_at(s, at) {
        Err(k) => ZoneFront::Refused(k),
        Ok((n, a)) => {
            if n == 0 {
                return ZoneFront::Refused(Refusal::BadInterval);
            }
            if 4096 < n {
                return ZoneFront::Refused(Refusal::TooLarge);
            }
            ZoneFront::Listed(id, n, a)
        }
    }
}

// A zone up to its intervals; pool is the pool's count. Every reader of a zone starts here.
pub fn read_front(s: &[u8], pool: u64) -> ZoneFront
    ensures { FrontOf pool s.now (parse_zone pool s.now) (parse_head s.now) result }
{
    match places::name_at(s, 0, pool) {
        Err(k) => ZoneFront::Refused(k),
        Ok((id, a)) => match places::byte_at(s, a) {
            Err(k) => ZoneFront::Refused(k),
            Ok((flag, e)) => {
                if flag == 1 {
                    return read_fixed(s, e, pool, id);
                }
                if flag == 2 {
                    return read_interval_count(s, e, pool, id);
                }
                ZoneFront::Refused(Refusal::BadData)
            }
        },
    }
}

// How many bytes the ID takes that a zone's data start with, one or two; 0 where other codes stand there.
fn id_size(s: &[u8]) -> usize
    requires { 2 ≤ length s.now }
    ensures { IdSize s.now result }
{
    if s[0] < 128 {
        return 1;
    }
    if s[1] == 0 {
        return 0;
    }
    if 127 < s[1] {
        return 0;
    }
    2
}

// An ID of one byte or two.
fn short_id(s: &[u8]) -> u64
    requires { 2 ≤ length s.now }
    ensures { result ≡ short_id s.now }
{
    let b = s[0] as u64;
    if b < 128 {
        return b;
    }
    b % 128 + 128 * s[1] as u64
}

// Where the intervals stand of a zone whose ID takes one byte or two and whose interval count takes one, as is usual; 0 where other codes stand
// before them.
fn short_place(s: &[u8], pool: u64) -> usize
    ensures { ShortPlace pool s.now result }
{
    if s.len() < 4 {
        return 0;
    }
    let k = id_size(s);
    if k == 0 {
        return 0;
    }
    if pool <= short_id(s) {
        return 0;
    }
    if s[k] != 2 {
        return 0;
    }
    if s[k + 1] == 0 {
        return 0;
    }
    if 127 < s[k + 1] {
        return 0;
    }
    k + 2
}

// The same as read_front; the usual codes take no call. For checks and questions. The data are passed on as a part of themselves: place and
// length of a slice that was made just before are then copied one by one, and both at once would wait for both.
pub fn read_usual_front(s: &[u8], pool: u64) -> ZoneFront
    ensures { FrontOf pool s.now (parse_zone pool s.now) (parse_head s.now) result }
{
    let at = short_place(s, pool);
    if at == 0 {
        return read_front(&s[0..], pool);
    }
    ZoneFront::Listed(short_id(s), s[at - 1] as u64, at)
}
