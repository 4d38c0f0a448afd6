// Copying bytes, with the contract of `slices::copy`.
#![tactic(auto)]

ghost use Rattle.std.specs.Prelude.{◌≡◌, ◌++◌, ◌≤◌, length, take, drop};

// Copies at most 8,192 bytes by way of an array of its own, which overlaps neither side: so both copies are known to be plain ones, and the compiler
// makes one wide copy of them and leaves the array out.
fn copy_block(src: &[u8], dst: &mut [u8])
    requires { (length src.now ≤ 8192) × (length src.now ≤ length dst.old) }
    ensures { dst.new ≡ take (length src.now) src.now ++ drop (length src.now) dst.old }
{
    let mut block = [0u8; 8192];
    let n = slices::copy(src, &mut block);
    slices::copy(&block[..n], dst);
}

// Copies all of src to the front of dst, and returns its length. A loop over bytes takes few of them sooner than a call does.
pub fn copy(src: &[u8], dst: &mut [u8]) -> usize
    requires { length src.now ≤ length dst.old }
    ensures value { result ≡ length src.now }
    ensures dst_after { dst.new ≡ take (length src.now) src.now ++ drop (length src.now) dst.old }
{
    if src.len() < 256 {
        return slices::copy(src, dst);
    }
    let mut i: usize = 0;
    while 8192 < src.len() - i {
        let e = i + 8192;
        copy_block(&src[i..e], &mut dst[i..]);
        i = e;
    }
    copy_block(&src[i..], &mut dst[i..]);
    src.len()
}
