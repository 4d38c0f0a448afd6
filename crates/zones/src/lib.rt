// The data of field 1, a zone: what the readers of its front and its end give, which every reader of a zone shares.
#![tactic(auto)]

use base::Refusal;
use tails::NamedTail;

// The interval that holds an instant: offsets with 86,400,000 added, the name's pool number, start and end as moments.
#[derive(Clone, Copy)]
pub struct Found {
    pub wall: u64,
    pub savings: u64,
    pub name: u64,
    pub start: u64,
    pub end: u64,
}

// Of Noda Time: the first ignores a fixed zone's name and shows its ID.
#[derive(Clone, Copy)]
pub enum Edition {
    One,
    Two,
}

// A zone up to its intervals: ID, offset and name of a fixed one, which is whole, or the ID of a listed one, how many intervals it has
// and where they stand.
#[derive(Clone, Copy)]
pub enum ZoneFront {
    Fixed(u64, u64, u64),
    Listed(u64, u64, usize),
    Refused(Refusal),
}

// What stands behind the intervals of a zone, to the end of its data.
#[derive(Clone, Copy)]
pub enum ZoneEnd {
    Untailed,
    Tailed(NamedTail),
    Refused(Refusal),
}
