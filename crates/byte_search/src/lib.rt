// Searching a byte in a part of a slice.
#![tactic(auto)]

ghost use Rattle.std.specs.Prelude.{◌≡◌, ◌+◌, ◌≤◌, length};
ghost use Rattle.byte_search.specs.Bytes.{index_of, slice};

// The place of the first b among the bytes of s from the place from up to the place to, or to where none is there.
pub fn find(s: &[u8], from: usize, to: usize, b: u8) -> usize
    requires order { from ≤ to }
    requires within { to ≤ length s.now }
    ensures value { result ≡ from + index_of b (slice from to s.now) }
    ensures bound { result ≤ to }
{
    for i in from..to {
        if s[i] == b {
            return i;
        }
    }
    to
}
