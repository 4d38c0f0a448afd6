// The pool of a closed file: its length, and the writing of it.
#![tactic(auto)]

ghost use Rattle.std.specs.Prelude.{◌≡◌, [], ◌≤◌, length, get_or, drop, Ok};
ghost use Rattle.counts.specs.Count.{read_count};
ghost use Rattle.texts.specs.Text.{write_text};
ghost use Rattle.pool.specs.Pool.{strings_of};
ghost use Rattle.pieces.specs.View.{Put};
ghost use Rattle.closed_files.specs.File.{chosen, write_texts, write_pool};
ghost use Rattle.closed_pools.specs.View.{GoodPool, Indexed};

use base::Coded;

// The count at a place, which is a string's length, and how many bytes it takes. One of one byte, the usual one, takes no call.
fn count_from(d: &[u8], at: usize) -> Coded<u64>
    requires { at ≤ length d.now }
    ensures { result ≡ read_count (drop at d.now) }
{
    if at < d.len() {
        let b = d[at] as u64;
        if b < 128 {
            return Ok((b, 1));
        }
    }
    count_readers::read_count(&d[at..])
}

// The places of the k strings of a good pool, from the first one on.
fn index_strings(d: &[u8], from: usize, k: usize, starts: &mut [u32])
    requires { GoodPool d.now × (read_count d.now ≡ Ok (k, from)) × (8192 ≤ length starts.old) }
    ensures { Indexed d.now starts.new k }
{
    let mut at = from;
    for i in 0..k {
        let g = count_from(d, at);
        match g {
            Err(_) => {
                return;
            }
            Ok((n, a)) => {
                starts[i] = at as u32;
                at = at + (a + n as usize);
            }
        }
    }
}

// The places of the strings of a good pool, and how many there are. The strings are not judged again.
fn index_pool(d: &[u8], starts: &mut [u32]) -> usize
    requires { GoodPool d.now × (8192 ≤ length starts.old) }
    ensures { Indexed d.now starts.new result }
{
    let g = count_readers::read_count(d);
    match g {
        Err(_) => 0,
        Ok((v, a)) => {
            let k = v as usize;
            index_strings(d, a, k, starts);
            k
        }
    }
}

// The length of the k-th string with its length code; that of the empty string where there is no such string.
fn text_size(d: &[u8], starts: &[u32], n: usize, k: usize) -> usize
    requires { Indexed d.now starts.now n }
    ensures { result ≡ length (write_text (get_or (strings_of d.now) k [])) }
{
    if n <= k {
        return 1;
    }
    let t = strings::text_by(d, starts, k);
    count_writers::count_size(t.len() as u64) + t.len()
}

// The length of the strings with the numbers in order.
fn texts_size(d: &[u8], starts: &[u32], n: usize, order: &[u64]) -> usize
    requires { Indexed d.now starts.now n × (length order.now ≤ 8192) }
    ensures { result ≡ length (write_texts (chosen (strings_of d.now) order.now)) }
{
    let mut sum: usize = 0;
    for &k in order {
        sum += text_size(d, starts, n, k as usize);
    }
    sum
}

// The length of the data of a pool with the strings of d that have the numbers in order.
pub fn pool_size(d: &[u8], order: &[u64]) -> usize
    requires { (length order.now ≤ 8192) × GoodPool d.now }
    ensures { result ≡ length (write_pool (chosen (strings_of d.now) order.now)) }
{
    let mut starts = [0u32; 8192];
    let n = index_pool(d, &mut starts);
    count_writers::count_size(order.len() as u64) + texts_size(d, &starts, n, order)
}

// Writes a string's length and its bytes.
fn write_text(t: &[u8], out: &mut [u8]) -> usize
    requires { (length t.now ≤ 1024) × (length (write_text t.now) ≤ length out.old) }
    ensures { Put (write_text t.now) out.old result out.new }
{
    let w = renumbering::write_number(t.len() as u64, out);
    w + slices::copy(t, &mut out[w..])
}

// Writes the k-th string; the empty string where there is no such string.
fn write_string(d: &[u8], starts: &[u32], n: usize, k: usize, out: &mut [u8]) -> usize
    requires { Indexed d.now starts.now n × (length (write_text (get_or (strings_of d.now) k [])) ≤ length out.old) }
    ensures { Put (write_text (get_or (strings_of d.now) k [])) out.old result out.new }
{
    if n <= k {
        return renumbering::write_number(0, out);
    }
    let t = strings::text_by(d, starts, k);
    write_text(t, out)
}

// Writes the strings with the numbers in order.
fn write_texts(d: &[u8], starts: &[u32], n: usize, order: &[u64], out: &mut [u8]) -> usize
    requires { Indexed d.now starts.now n × (length (write_texts (chosen (strings_of d.now) order.now)) ≤ length out.old) }
    ensures { Put (write_texts (chosen (strings_of d.now) order.now)) out.old result out.new }
{
    let mut w: usize = 0;
    for &k in order {
        w += write_string(d, starts, n, k as usize, &mut out[w..]);
    }
    w
}

// Writes the data of a pool with the strings of d that have the numbers in order.
pub fn write_pool(d: &[u8], order: &[u64], out: &mut [u8]) -> usize
    requires { (length order.now ≤ 8192) × GoodPool d.now × (length (write_pool (chosen (strings_of d.now) order.now)) ≤ length out.old) }
    ensures { Put (write_pool (chosen (strings_of d.now) order.now)) out.old result out.new }
{
    let mut starts = [0u32; 8192];
    let n = index_pool(d, &mut starts);
    let w = renumbering::write_number(order.len() as u64, out);
    w + write_texts(d, &starts, n, order, &mut out[w..])
}
