// The whole-file check and the version text, from one walk over the file.
#![tactic(auto)]

ghost use Rattle.std.specs.Prelude.{◌≡◌, ◌≤◌};
ghost use Rattle.field_checks.specs.Check.{conclusion, check_of, version_of};
ghost use Rattle.check_steps.specs.Room.{room_for, Started};
ghost use Rattle.check_steps.specs.Flags.{FlagsWalked, FlagsChecked};

use base::{Fault, Refusal};
use check_steps::{Cursor, Turn};
use field_checks::Conclusion;
use field_readers::Kept;

// The walk over a whole file, which leaves the flags of its zones, with arrays that have room for the strings of its pool.
fn walk_with(s: &[u8], flags: &mut [u8], index: &mut [u32], order: &mut [u16]) -> Conclusion
    requires { Started s.now index.old order.old }
    ensures { (result ≡ conclusion s.now) × FlagsWalked s.now flags.new result }
{
    let mut c = Cursor {
        at: 0,
        prev: 0,
        kept: Kept {
            start: 0,
            end: 0,
            count: 0,
            zones: 0,
            text: 0,
            len: 0,
        },
    };
    loop {
        let t = check_steps::step(s, c, &mut *index, &mut *order, &mut *flags);
        match t {
            Turn::Done(x) => {
                return x;
            }
            Turn::Next(d) => {
                c = d;
            }
        }
    }
}

// The same with arrays of its own, for a pool of at most 256 strings. They are cleared at each check, so they are no longer than need be.
fn walk_short(s: &[u8], flags: &mut [u8]) -> Conclusion
    requires { room_for s.now ≤ 256 }
    ensures { (result ≡ conclusion s.now) × FlagsWalked s.now flags.new result }
{
    let mut index = [0u32; 256];
    let mut order = [0u16; 513];
    walk_with(s, flags, &mut index, &mut order)
}

// The same for every pool.
fn walk_long(s: &[u8], flags: &mut [u8]) -> Conclusion
    ensures { (result ≡ conclusion s.now) × FlagsWalked s.now flags.new result }
{
    let mut index = [0u32; 8192];
    let mut order = [0u16; 8449];
    walk_with(s, flags, &mut index, &mut order)
}

// The same with the shorter arrays where they have room.
fn walk(s: &[u8], flags: &mut [u8]) -> Conclusion
    ensures { (result ≡ conclusion s.now) × FlagsWalked s.now flags.new result }
{
    if check_steps::room(s) <= 256 {
        return walk_short(s, flags);
    }
    walk_long(s, flags)
}

// The check of a whole file, which leaves the flags of its zones, by the numbers of their IDs in the pool.
pub fn check_flags(s: &[u8], flags: &mut [u8]) -> Result<(), Fault>
    ensures { (result ≡ check_of s.now) × FlagsChecked s.now flags.new result }
{
    let x = walk(s, flags);
    match x {
        Conclusion::Refused(n, p) => Err((n, p)),
        Conclusion::Bare(_) => Ok(()),
        Conclusion::WithText(_, _) => Ok(()),
    }
}

// The check of a whole file. Without flags no zone's form is looked at.
pub fn check(s: &[u8]) -> Result<(), Fault>
    ensures { result ≡ check_of s.now }
{
    let mut flags = [0u8; 0];
    check_flags(s, &mut flags)
}

// The version text of a file, all checked first: the place of its first byte, and how many bytes it has.
pub fn version_text(s: &[u8]) -> Result<(usize, usize), Fault>
    ensures { result ≡ version_of s.now }
{
    let mut flags = [0u8; 0];
    let x = walk(s, &mut flags);
    match x {
        Conclusion::Refused(n, p) => Err((n, p)),
        Conclusion::Bare(p) => Err((Refusal::NotFound, p)),
        Conclusion::WithText(a, n) => Ok((a, n)),
    }
}
