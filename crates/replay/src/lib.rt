// Replaying a phone's trace: the first record that a file contradicts.
#![tactic(auto)]

ghost use Rattle.std.specs.Prelude.{◌≡◌, ◌+◌, ◌*◌, ◌≤◌, ◌<◌, length};
ghost use Rattle.pool.specs.Pool.{strings_of};
ghost use Rattle.pool.specs.Index.{room_of, Ready};
ghost use Rattle.locate.specs.View.{part, Lies, PoolAt};
ghost use Rattle.trace_records.specs.Passed.{PassedOk, ReachedAs};
ghost use Rattle.traces.specs.Trace.{name_start, name_length, name_at};
ghost use Rattle.replay.specs.Reports.{first_wrong, replay as replay_of};
ghost use Rattle.replay.specs.View.{reached_zone, PoolRead, Records};

use base::{Fault, Refusal};
use found_zones::FoundZone;
use locate::First;
use trace_records::{Kept, PassedZones, ReachedZone};

// A number of the record's name, by which its zone is kept; never 0.
fn key(s: &[u8], names: usize, at: usize) -> u32
    requires { (at + 20 ≤ length s.now) × (names + (name_start at s.now + name_length at s.now) ≤ length s.now) }
{
    let start = count_readers::four_at(s, at + 8) as usize;
    let len = count_readers::four_at(s, at + 12) as usize;
    let to = names + start + len;
    let mut i = names + start;
    let mut h = len as u64;
    while 4 <= to - i {
        h = (h * 16777619 + count_readers::four_at(s, i)) % 4294967296;
        i += 4;
    }
    while i < to {
        h = (h * 16777619 + s[i] as u64) % 4294967296;
        i += 1;
    }
    (h % 4294967295 + 1) as u32
}

// The place of the zone with a key, or of none. Its high bits tell where to start, since each byte of a name changes them.
fn seek(marks: &[u32; 512], h: u32) -> usize
    requires { length marks.now ≡ 512 }
    ensures { result < 512 }
{
    let first = (h / 8388608 % 512) as usize;
    let mut k = first;
    let mut left: usize = 64;
    while 0 < left {
        if marks[k] == h {
            return k;
        }
        if marks[k] == 0 {
            return k;
        }
        k = (k + 1) % 512;
        left -= 1;
    }
    first
}

// The zone of the record's name, by those passed.
fn reach_name(
    f: &[u8],
    starts: &[u32],
    d: usize,
    e: usize,
    count: usize,
    s: &[u8],
    names: usize,
    at: usize,
    order: &mut [u16],
    froms: &mut [u32; 8192],
    tos: &mut [u32; 8192],
    p: PassedZones,
) -> ReachedZone
    requires { (at + 20 ≤ length s.now) × (names + (name_start at s.now + name_length at s.now) ≤ length s.now) × Lies f.now d e × Ready (part d e f.now) starts.now × (count ≡ length (strings_of (part d e f.now))) × PassedOk f.now d e order.old froms.old tos.old p }
    ensures { ReachedAs f.now d e (name_at names at s.now) order.new froms.new tos.new result }
{
    let start = count_readers::four_at(s, at + 8) as usize;
    let len = count_readers::four_at(s, at + 12) as usize;
    let from = names + start;
    let to = from + len;
    trace_records::reach(f, starts, d, e, count, &s[from..to], order, froms, tos, p)
}

fn reached_zone(d: usize, e: usize, a: usize, b: usize) -> FoundZone
    ensures { result ≡ reached_zone d e a b }
{
    FoundZone {
        pool: d,
        past: e,
        start: a,
        end: b,
        place: 0,
    }
}

// The first of the n records at a place that the file contradicts. The data of field 0 are f[d..e], and starts is the index of their strings.
fn in_zones(
    f: &[u8],
    starts: &[u32],
    d: usize,
    e: usize,
    count: usize,
    s: &[u8],
    names: usize,
    n: u64,
    at: usize,
) -> Result<Option<u64>, Fault>
    requires { Records s.now names n at × PoolRead f.now d e × Ready (part d e f.now) starts.now × (count ≡ length (strings_of (part d e f.now))) }
    ensures { result ≡ first_wrong f.now names s.now n 0 at }
{
    let mut order = [0u16; 8449];
    let mut froms = [0u32; 8192];
    let mut tos = [0u32; 8192];
    let mut marks = [0u32; 512];
    let none = trace_records::none_kept();
    let mut kept = [none; 512];
    let mut last = none;
    let mut p = PassedZones {
        at: e,
        prev: 0,
        ids: 0,
    };
    let mut left = n;
    let mut i = 0;
    let mut place = at;
    while 0 < left {
        if trace_records::still_agrees(s, names, place, last) {
            left -= 1;
            i += 1;
            place += 20;
        } else {
            let h = key(s, names, place);
            let k = seek(&marks, h);
            let old = kept[k];
            if trace_records::has_name(s, names, place, old) {
                let now = trace_records::take_same(f, s, names, place, old);
                if now.agrees {
                    last = now.kept;
                    kept[k] = last;
                    left -= 1;
                    i += 1;
                    place += 20;
                } else {
                    return Ok(Some(i));
                }
            } else {
                let r = reach_name(
                    f, starts, d, e, count, s, names, place, &mut order, &mut froms, &mut tos, p,
                );
                if r.end == 0 {
                    return Ok(Some(i));
                }
                p = r.passed;
                let v = reached_zone(d, e, r.start, r.end);
                let now = trace_records::take_found(f, s, names, place, v);
                if now.agrees {
                    last = now.kept;
                    marks[k] = h;
                    kept[k] = last;
                    left -= 1;
                    i += 1;
                    place += 20;
                } else {
                    return Ok(Some(i));
                }
            }
        }
    }
    Ok(None)
}

// The same of a file whose field 0 has the data f[d..e]; starts gets the index of its strings.
fn in_pool(
    f: &[u8],
    d: usize,
    e: usize,
    s: &[u8],
    names: usize,
    n: u64,
    at: usize,
    starts: &mut [u32],
) -> Result<Option<u64>, Fault>
    requires { (0 < n) × Records s.now names n at × PoolAt f.now d e × (room_of (part d e f.now) ≤ length starts.old) }
    ensures { result ≡ first_wrong f.now names s.now n 0 at }
{
    match pool::check_pool(&f[d..e], starts) {
        Err(_) => Ok(Some(0)),
        Ok(k) => in_zones(f, &*starts, d, e, k, s, names, n, at),
    }
}

// The same with an index of its own.
fn indexed(
    f: &[u8],
    d: usize,
    e: usize,
    s: &[u8],
    names: usize,
    n: u64,
    at: usize,
) -> Result<Option<u64>, Fault>
    requires { (0 < n) × Records s.now names n at × PoolAt f.now d e }
    ensures { result ≡ first_wrong f.now names s.now n 0 at }
{
    let mut starts = [0u32; 8192];
    in_pool(f, d, e, s, names, n, at, &mut starts)
}

// The same of any file. Where field 0 can't be read, every question is refused.
fn first_wrong(f: &[u8], s: &[u8], names: usize, n: u64, at: usize) -> Result<Option<u64>, Fault>
    requires { Records s.now names n at }
    ensures { result ≡ first_wrong f.now names s.now n 0 at }
{
    if n == 0 {
        return Ok(None);
    }
    match first_fields::read_first(f) {
        First::Refused(_, _) => Ok(Some(0)),
        First::Cut(_) => Ok(Some(0)),
        First::End(_) => Ok(Some(0)),
        First::Pool(d, e) => indexed(f, d, e, s, names, n, at),
    }
}

// The number, from 0, of the first record of the trace s whose shown offset isn't the file's, or whose question the file refuses; or none.
pub fn replay(f: &[u8], s: &[u8]) -> Result<Option<u64>, Fault>
    ensures { result ≡ replay_of f.now s.now }
{
    if traces::trace_ok(s) {
        let n = count_readers::four_at(s, 0);
        let at = count_readers::four_at(s, 4) as usize;
        let names = count_readers::four_at(s, 12) as usize;
        return first_wrong(f, s, names, n, at);
    }
    Err((Refusal::BadTrace, 0))
}
