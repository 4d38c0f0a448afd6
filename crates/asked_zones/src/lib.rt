// The walk to the asked zone of a file.
#![tactic(auto)]

ghost use Rattle.std.specs.Prelude.{◌≡◌, ◌≤◌, length, drop, true};
ghost use Rattle.std.proofs.lemmas.List.Edits.{sets};
ghost use Rattle.pool.specs.Pool.{parse_pool, strings_of};
ghost use Rattle.pool.specs.Index.{starts_of, room_of, Ready};
ghost use Rattle.zones.specs.Parse.{parse_zone};
ghost use Rattle.frames.specs.Machine.{from, state_at};
ghost use Rattle.locate.specs.Asked.{holder};
ghost use Rattle.locate.specs.View.{part, pool_at, Lies, by_pool, JudgedAs, LocatedAs};
ghost use Rattle.asked_zones.specs.Known.{JudgedBy, WalkedAs};

use frames::Frame;
use locate::{Judged, Located, Spot};

// A whole zone in d: whether its ID, which stands first, is the asked one; else it is checked.
pub fn judge(pool: &[u8], starts: &[u32], count: usize, d: &[u8], id: &[u8]) -> Judged
    requires { Ready pool.now starts.now × (count ≡ length (strings_of pool.now)) }
    ensures { JudgedAs id.now pool.now (parse_zone count d.now) result }
{
    match places::name_at(d, 0, count as u64) {
        Err(n) => Judged::Fault(n),
        Ok((z, _)) => {
            let k = z as usize;
            if strings::has_id(pool, starts, k, id) {
                return Judged::Here;
            }
            match zone_reads::check(d, count as u64) {
                Err(n) => Judged::Fault(n),
                Ok(_) => Judged::Keep,
            }
        }
    }
}

// A whole zone in d, which isn't checked again where it is known to be good. The walk over zones has this for itself, so that it is put in place
// there; `judge` is for walks over other fields too.
fn judge_by(pool: &[u8], starts: &[u32], count: usize, d: &[u8], id: &[u8], known: bool) -> Judged
    requires { Ready pool.now starts.now × (count ≡ length (strings_of pool.now)) }
    ensures { JudgedBy known id.now pool.now (parse_zone count d.now) result }
{
    match places::name_at(d, 0, count as u64) {
        Err(n) => Judged::Fault(n),
        Ok((z, _)) => {
            let k = z as usize;
            if strings::has_id(pool, starts, k, id) {
                return Judged::Here;
            }
            if known {
                return Judged::Keep;
            }
            match zone_reads::check(d, count as u64) {
                Err(n) => Judged::Fault(n),
                Ok(_) => Judged::Keep,
            }
        }
    }
}

// The zones behind field 0, whose data is s[start..end]. Where `known` says that the asked one has been met, those before it are not checked again.
pub fn walk_zones(
    s: &[u8],
    starts: &[u32],
    start: usize,
    end: usize,
    count: usize,
    id: &[u8],
    known: bool,
) -> Located
    requires { Lies s.now start end × Ready (part start end s.now) starts.now × (count ≡ length (strings_of (part start end s.now))) }
    ensures { WalkedAs known s.now (pool_at s.now start end) (from (holder id.now) (state_at end (drop end s.now) true 0 (pool_at s.now start end))) result }
{
    let mut at = end;
    let mut prev: usize = 0;
    loop {
        let f = headers::next_frame(&s[at..], 1, at, true, prev);
        match f {
            Frame::End => {
                return Located::End(at);
            }
            Frame::Cut => {
                return Located::Cut(at);
            }
            Frame::Refused(n) => {
                return Located::Refused(n, at);
            }
            // The version stands at place 0 only.
            Frame::Version => {
                return Located::Cut(at);
            }
            Frame::Whole(i, h, n) => {
                let d = at + h;
                let e = d + n;
                let j = judge_by(&s[start..end], starts, count, &s[d..e], id, known);
                match j {
                    Judged::Here => {
                        return Located::Found(Spot {
                            place: at,
                            start: d,
                            past: e,
                            count: count,
                        });
                    }
                    Judged::Fault(k) => {
                        return Located::Refused(k, at);
                    }
                    Judged::Keep => {
                        at = e;
                        prev = i as usize;
                    }
                }
            }
        }
    }
}

// Where the zone with the bytes id stands; the data of field 0 is s[d..e], as read_first gave it. starts gets the index of its strings.
pub fn walk(s: &[u8], d: usize, e: usize, id: &[u8], starts: &mut [u32]) -> Located
    requires { Lies s.now d e × (room_of (part d e s.now) ≤ length starts.old) }
    ensures { LocatedAs s.now (pool_at s.now d e) (by_pool id.now s.now d e (parse_pool (part d e s.now))) result × (starts.new ≡ sets starts.old 0 (starts_of (part d e s.now))) }
{
    match pool::check_pool(&s[d..e], starts) {
        Err(m) => Located::Refused(m, 4),
        Ok(k) => walk_zones(s, &*starts, d, e, k, id, false),
    }
}
