// The check of field 0, and its index.
#![tactic(auto)]

ghost use Rattle.std.specs.Prelude.{◌≡◌, true, ◌+◌, ◌-◌, ◌≤◌, ◌<◌, length, drop, get_or, set};
ghost use Rattle.std.proofs.lemmas.List.Edits.{sets};
ghost use Rattle.pool.specs.Pool.{all_strings, parse_pool, checked};
ghost use Rattle.pool.specs.Index.{read_starts, starts_of, room_of, short_length, Plain};

use base::Refusal;

// How many of the first n elements stand from the place at on.
fn behind(n: usize, at: usize) -> usize
    ensures { result ≡ n - at }
{
    if at < n {
        return n - at;
    }
    0
}

// The length of the string at a place, where its length code has one byte and all of it lies before the place `plain`; else 128. The usual
// string is read by this alone.
fn short(d: &[u8], at: usize, plain: usize) -> usize
    requires { at < 4294967296 }
    ensures { result ≡ short_length d.now at plain }
{
    if d.len() <= at {
        return 128;
    }
    let n = d[at] as usize;
    if 127 < n {
        return 128;
    }
    if at + n < plain {
        return n;
    }
    128
}

// Up to which place the bytes from a place on are known to be ASCII. They are looked at again 64 bytes behind what is known, unless the next
// string's length or its first character isn't ASCII: so every byte is looked at a few times at most.
fn plain_from(d: &[u8], at: usize, plain: usize) -> usize
    requires { (at ≤ length d.now) × Plain d.now at plain }
    ensures { Plain d.now at result }
{
    if plain <= at {
        if 64 <= at - plain {
            if 1 < d.len() - at {
                if d[at] < 128 {
                    if d[at + 1] < 128 {
                        return at + utf8::ascii_front(&d[at..]);
                    }
                }
            }
        }
    }
    plain
}

// Whether four of the strings that are left are short and lie before the place `plain`, up to which the bytes are ASCII: so are their lengths
// then, and each string takes at most 128 bytes.
fn are_short(left: usize, at: usize, plain: usize) -> bool
    ensures { result ≡ true → (4 ≤ left) × (at + 512 ≤ plain) }
{
    if left < 4 {
        return false;
    }
    if plain < 512 {
        return false;
    }
    if plain - 512 < at {
        return false;
    }
    true
}

// Passes a short string, the j-th of some in a row: starts gets its place as its i-th. `at` is the place but for the length bytes of the j before it, so
// that the next place takes one addition.
fn pass_short(d: &[u8], at: usize, j: usize, i: usize, starts: &mut [u32]) -> usize
    requires { (at + j < length d.now) × (at + j < 4294967296) × (i < length starts.old) }
    ensures { (result ≡ at + get_or d.now (at + j) 0) × (starts.new ≡ set starts.old i (at + j)) }
{
    let p = at + j;
    starts[i] = p as u32;
    at + d[p] as usize
}

// The strings of d from a place on, k of them and nothing behind. starts gets the place of each. The bytes up to the place `front` are ASCII.
// Short ones are taken by four, which leaves no test between the length of one and the length of the next.
fn fill(d: &[u8], from: usize, k: usize, front: usize, starts: &mut [u32]) -> Result<usize, Refusal>
    requires { (from ≤ length d.now) × (from ≤ 5) × (k ≤ 8192) × (k ≤ length starts.old) × Plain d.now from front }
    ensures { (result ≡ checked (all_strings k (drop from d.now))) × (starts.new ≡ sets starts.old 0 (read_starts k from (drop from d.now))) }
{
    let mut at = from;
    let mut i: usize = 0;
    let mut plain = front;
    while i < k {
        if are_short(k - i, at, plain) {
            let mut j: usize = 0;
            while j < 4 {
                at = pass_short(d, at, j, i, starts);
                i += 1;
                j += 1;
            }
            at += j;
        } else {
            let n = short(d, at, plain);
            if n < 128 {
                starts[i] = at as u32;
                at = at + (1 + n);
                i += 1;
            } else {
                let known = behind(plain, at);
                let t = texts::read_text_in(&d[at..], known);
                match t {
                    Err(m) => {
                        return Err(m);
                    }
                    Ok((a, m)) => {
                        starts[i] = at as u32;
                        at = at + (a + m);
                        i += 1;
                        plain = plain_from(d, at, plain);
                    }
                }
            }
        }
    }
    if at == d.len() {
        return Ok(k);
    }
    Err(Refusal::BadData)
}

// How many places the index of the pool in d needs.
pub fn room(d: &[u8]) -> usize
    ensures { result ≡ room_of d.now }
{
    let g = count_readers::read_count(d);
    match g {
        Err(_) => 0,
        Ok((v, _)) => {
            let k = v as usize;
            if k <= 8192 {
                return k;
            }
            0
        }
    }
}

// How many strings the pool in d has, the data of field 0. starts gets the place of each string before the first that is refused.
pub fn check_pool(d: &[u8], starts: &mut [u32]) -> Result<usize, Refusal>
    requires { room_of d.now ≤ length starts.old }
    ensures { (result ≡ checked (parse_pool d.now)) × (starts.new ≡ sets starts.old 0 (starts_of d.now)) }
{
    let g = count_readers::read_count(d);
    let (v, a) = g?;
    let k = v as usize;
    if 8192 < k {
        return Err(Refusal::TooLarge);
    }
    let plain = utf8::ascii_front(&d[a..]);
    fill(d, a, k, a + plain, starts)
}

// Where a string's bytes lie in the pool's data: the place of the first, and how many there are.
#[derive(Clone, Copy)]
pub struct Span {
    pub at: usize,
    pub len: usize,
}
