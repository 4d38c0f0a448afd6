// What the C functions share: number and place in one result, and the numbers of a small code, a count and a pair in an output of fixed size.
#![tactic(auto)]

ghost use Rattle.std.specs.Prelude.{◌≡◌, ◌≤◌};
ghost use Rattle.base.specs.Writing.{Writes};
ghost use Rattle.replies.specs.Reply.{refusal as refusal_of, written_of, Gives};
ghost use Rattle.replies.specs.Functions.{read_reply, number_reply, text_reply, length_result, count_reply, pair_reply, integer_form};
ghost use Rattle.replies.specs.Small.{SmallRead, SmallNumber, SmallText, SmallWrote, SmallLength, SmallCount, SmallPair};

use base::{Coded, Fault, Refusal};

// Number and place in one result.
pub fn refusal(k: Refusal, place: usize) -> u64
    requires { place ≤ 4194304 }
    ensures { result ≡ refusal_of k place }
{
    (k.number() as u64) + 256 * (place as u64)
}

// The result of a writer.
pub fn written(w: Result<usize, Refusal>) -> u64
    requires { SmallWrote w }
    ensures { result ≡ written_of w }
{
    match w {
        Ok(n) => 256 * (n as u64),
        Err(k) => k.number() as u64,
    }
}

// A length, or number and place, in one result.
pub fn length_result(x: Result<usize, Fault>) -> u64
    requires { SmallLength x }
    ensures { result ≡ length_result x }
{
    match x {
        Ok(bytes) => 256 * (bytes as u64),
        Err((k, p)) => refusal(k, p),
    }
}

// Writes a count of a number that may be below 0.
pub fn write_integer(v: i64, out: &mut [u8]) -> Result<usize, Refusal>
    ensures { Writes (integer_form v) out.old result out.new }
{
    if v < 0 {
        return Err(Refusal::BadCode);
    }
    count_writers::write_count(v as u64, out)
}

// Value and length of a code without a sign.
pub fn give_read(c: Coded<u64>, out: &mut [i64; 2]) -> u64
    requires { SmallRead c }
    ensures { Gives (read_reply c) out.old result out.new }
{
    match c {
        Ok((v, n)) => {
            *out = [v as i64, n as i64];
            0
        }
        Err(k) => k.number() as u64,
    }
}

// Value and length of a code with a sign.
pub fn give_number(c: Coded<i64>, out: &mut [i64; 2]) -> u64
    requires { SmallNumber c }
    ensures { Gives (number_reply c) out.old result out.new }
{
    match c {
        Ok((v, n)) => {
            *out = [v, n as i64];
            0
        }
        Err(k) => k.number() as u64,
    }
}

// Place and length of a text.
pub fn give_text(t: Result<(usize, usize), Refusal>, out: &mut [i64; 2]) -> u64
    requires { SmallText t }
    ensures { Gives (text_reply t) out.old result out.new }
{
    match t {
        Ok((a, n)) => {
            *out = [a as i64, n as i64];
            0
        }
        Err(k) => k.number() as u64,
    }
}

// How many there are of what was asked for.
pub fn give_count(x: Result<usize, Fault>, count: &mut [i64; 1]) -> u64
    requires { SmallCount x }
    ensures { Gives (count_reply x) count.old result count.new }
{
    match x {
        Ok(n) => {
            *count = [n as i64];
            0
        }
        Err((k, p)) => refusal(k, p),
    }
}

// Two numbers from 0 on, in their order.
pub fn give_pair(x: Result<(usize, usize), Fault>, out: &mut [i64; 2]) -> u64
    requires { SmallPair x }
    ensures { Gives (pair_reply x) out.old result out.new }
{
    match x {
        Ok((a, n)) => {
            *out = [a as i64, n as i64];
            0
        }
        Err((k, place)) => refusal(k, place),
    }
}
