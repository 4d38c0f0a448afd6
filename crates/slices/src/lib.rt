// Copying the bytes of one slice to the front of another.
#![tactic(auto)]

ghost use Rattle.std.specs.Prelude.{◌≡◌, ◌≤◌, ◌++◌, length, take, drop};

// Copies all of src to the front of dst, and returns its length.
pub fn copy(src: &[u8], dst: &mut [u8]) -> usize
    requires { length src.now ≤ length dst.old }
    ensures value { result ≡ length src.now }
    ensures dst_after { dst.new ≡ take (length src.now) src.now ++ drop (length src.now) dst.old }
{
    let n = src.len();
    dst[..n].copy_from_slice(src);
    n
}
