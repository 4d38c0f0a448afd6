// What the named question makes of the fields before the aliases.
#![tactic(auto)]

ghost use Rattle.std.specs.Prelude.{◌≡◌, ◌≤◌, length};
ghost use Rattle.pool.specs.Pool.{strings_of};
ghost use Rattle.pool.specs.Index.{Ready};
ghost use Rattle.zones.specs.Parse.{parse_zone};
ghost use Rattle.locate.specs.View.{part, Lies};
ghost use Rattle.named_fields.specs.View.{JudgedText, JudgedZone, JudgedField};

use base::Refusal;
use locate::Judged;

// Field 2 in d.
fn judge_text(d: &[u8]) -> Judged
    ensures { JudgedText d.now result }
{
    match texts::read_text(d) {
        Err(n) => Judged::Fault(n),
        Ok((b, n)) => {
            if b + n == d.len() {
                return Judged::Keep;
            }
            Judged::Fault(Refusal::BadData)
        }
    }
}

// A whole zone in d. One with another ID than the asked one gets a flag.
fn judge_zone(
    pool: &[u8],
    starts: &[u32],
    count: usize,
    d: &[u8],
    name: &[u8],
    flags: &mut [u8],
) -> Judged
    requires { Ready pool.now starts.now × (count ≡ length (strings_of pool.now)) × (count ≤ length flags.old) }
    ensures { JudgedZone name.now pool.now (parse_zone count d.now) flags.old flags.new result }
{
    let j = asked_zones::judge(pool, starts, count, d, name);
    match j {
        Judged::Here => Judged::Here,
        Judged::Fault(n) => Judged::Fault(n),
        Judged::Keep => match places::name_at(d, 0, count as u64) {
            Err(n) => Judged::Fault(n),
            Ok((k, _)) => {
                flags[k as usize] = 1;
                Judged::Keep
            }
        },
    }
}

// The field with the ID i, 1 or 2, in s[d..q], behind field 0 in s[start..end].
pub fn judge_field(
    s: &[u8],
    starts: &[u32],
    start: usize,
    end: usize,
    count: usize,
    i: u8,
    d: usize,
    q: usize,
    name: &[u8],
    flags: &mut [u8],
) -> Judged
    requires { Lies s.now start end × Ready (part start end s.now) starts.now × (count ≡ length (strings_of (part start end s.now))) × (count ≤ length flags.old) × (d ≤ q) × (q ≤ length s.now) }
    ensures { JudgedField name.now s.now start end i d q flags.old flags.new result }
{
    if i == 1 {
        return judge_zone(&s[start..end], starts, count, &s[d..q], name, flags);
    }
    judge_text(&s[d..q])
}
