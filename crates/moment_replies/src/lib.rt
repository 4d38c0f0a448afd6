// What the C functions share on transitions: moments and the numbers that stand for them.
#![tactic(auto)]

ghost use Rattle.std.specs.Prelude.{◌≡◌};
ghost use Rattle.replies.specs.Reply.{Gives};
ghost use Rattle.replies.specs.Functions.{moment_reply, previous_of, moment_of};
ghost use Rattle.replies.specs.Small.{SmallRead};

use base::Coded;

pub fn previous_of(finite: bool, previous: i64) -> u64
    ensures { result ≡ previous_of finite previous }
{
    if finite {
        return signed::instant(previous);
    }
    0
}

// Kind, ticks and length of a transition.
pub fn give_moment(c: Coded<u64>, out: &mut [i64; 3]) -> u64
    requires { SmallRead c }
    ensures { Gives (moment_reply c) out.old result out.new }
{
    match c {
        Ok((m, n)) => {
            if m == 0 {
                *out = [0, 0, n as i64];
                return 0;
            }
            if m == 3281606784000000000 {
                *out = [1, 0, n as i64];
                return 0;
            }
            *out = [2, signed::ticks(m), n as i64];
            0
        }
        Err(k) => k.number() as u64,
    }
}

// The moment of a kind and ticks.
pub fn moment_of(kind: u8, ticks: i64) -> u64
    ensures { result ≡ moment_of kind ticks }
{
    if kind == 0 {
        return 0;
    }
    if kind == 1 {
        return 3281606784000000000;
    }
    if kind == 2 {
        let t = signed::instant(ticks);
        if t == 0 {
            return 1;
        }
        return t;
    }
    1
}
