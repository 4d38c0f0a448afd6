// The frames of a file: its version, and each field's ID, size and extent.
#![tactic(auto)]

use base::Refusal;

// What stands at a place of a file.
#[derive(Clone, Copy)]
pub enum Frame {
    // Nothing: the bytes end there.
    End,
    // A part of the version or of a field, up to the bytes' end.
    Cut,
    // A refusal.
    Refused(Refusal),
    // The version.
    Version,
    // A whole field: its ID, the length of its head (ID byte and size code), the length of its data.
    Whole(u8, usize, usize),
}
