// A zone's data in their preferred form: how long they are, and the writing of them. Every transition is written in the writer's form, all else is
// copied.
#![tactic(auto)]

ghost use Rattle.std.specs.Prelude.{◌≡◌, ◌++◌, ◌≤◌, ◌<◌, length};
ghost use Rattle.base.specs.Moment.{end_of_time};
ghost use Rattle.base.proofs.MomentLaws.{Moment};
ghost use Rattle.counts.specs.Count.{write_count};
ghost use Rattle.transitions.specs.Transition.{write_moment};
ghost use Rattle.pieces.specs.Content.{print_pieces, content_of, print};
ghost use Rattle.pieces.specs.View.{HasPieces, HasContent, pieces_at, Put};

use base::END;

// The length of n pieces from a place on, in their preferred form.
fn pieces_size(s: &[u8], at: usize, n: u64) -> usize
    requires { HasPieces s.now n at }
    ensures { result ≡ length (print_pieces end_of_time (pieces_at s.now n at)) }
{
    let mut left = n;
    let mut place = at;
    let mut prev = END;
    let mut size = 0;
    while 0 < left {
        left -= 1;
        let item = any_intervals::moment_at(s, place, prev);
        match item {
            Err(_) => {
                return 0;
            }
            Ok((m, a)) => {
                let e = pieces::piece_end(s, a, left);
                size += pieces::code_size(prev, m, a - place) + (e - a);
                place = e;
                prev = m;
            }
        }
    }
    size
}

// Writes hours of two bytes and the three bytes that follow them.
fn write_five(v: u64, s: &[u8], out: &mut [u8]) -> usize
    requires { (128 ≤ v) × (v < 16384) × (length s.now ≡ 3) × (5 ≤ length out.old) }
    ensures { Put (write_count v ++ s.now) out.old result out.new }
{
    out[0] = (128 + v % 128) as u8;
    out[1] = (v / 128) as u8;
    out[2] = s[0];
    out[3] = s[1];
    out[4] = s[2];
    5
}

// Writes a transition and the bytes that follow it. Five bytes in all, the usual ones, take no call.
fn write_piece(prev: u64, m: u64, s: &[u8], out: &mut [u8]) -> usize
    requires { Moment m × (length (write_moment prev m ++ s.now) ≤ length out.old) }
    ensures { Put (write_moment prev m ++ s.now) out.old result out.new }
{
    if s.len() == 3 {
        if m < END {
            let v = transition_writers::hours_to(prev, m);
            if 0 < v {
                if v < 16384 {
                    return write_five(v, s, out);
                }
            }
        }
    }
    match transition_writers::write_moment(prev, m, out) {
        Err(_) => 0,
        Ok(n) => n + slices::copy(s, &mut out[n..]),
    }
}

// Writes n pieces from a place on.
fn write_pieces(s: &[u8], at: usize, n: u64, out: &mut [u8]) -> usize
    requires { HasPieces s.now n at × (length (print_pieces end_of_time (pieces_at s.now n at)) ≤ length out.old) }
    ensures { Put (print_pieces end_of_time (pieces_at s.now n at)) out.old result out.new }
{
    let mut left = n;
    let mut place = at;
    let mut prev = END;
    let mut w = 0;
    while 0 < left {
        left -= 1;
        let item = any_intervals::moment_at(s, place, prev);
        match item {
            Err(_) => {
                return w;
            }
            Ok((m, a)) => {
                let e = pieces::piece_end(s, a, left);
                w += write_piece(prev, m, &s[a..e], &mut out[w..]);
                place = e;
                prev = m;
            }
        }
    }
    w
}

// The length of a zone's data in their preferred form.
pub fn zone_size(s: &[u8]) -> usize
    requires { HasContent s.now }
    ensures { result ≡ length (print (content_of 1 s.now)) }
{
    match pieces::read_head(s) {
        Err(_) => 0,
        Ok((n, a)) => a + pieces_size(s, a, n),
    }
}

// Writes a zone's data in their preferred form.
pub fn write_zone(s: &[u8], out: &mut [u8]) -> usize
    requires { HasContent s.now × (length (print (content_of 1 s.now)) ≤ length out.old) }
    ensures { Put (print (content_of 1 s.now)) out.old result out.new }
{
    match pieces::read_head(s) {
        Err(_) => 0,
        Ok((n, a)) => {
            let k = slices::copy(&s[..a], out);
            k + write_pieces(s, a, n, &mut out[k..])
        }
    }
}

// How many bytes the size of a zone's preferred data takes. Most often the longest and the shortest that they can be tell.
pub fn size_length(s: &[u8]) -> usize
    requires { HasContent s.now }
    ensures { result ≡ length (write_count (length (print (content_of 1 s.now)))) }
{
    match pieces::read_head(s) {
        Err(_) => 0,
        Ok((n, _)) => {
            let most = count_writers::count_size(s.len() as u64);
            if count_writers::count_size(pieces::least(s.len() as u64, n)) == most {
                return most;
            }
            count_writers::count_size(zone_size(s) as u64)
        }
    }
}
