// The data of fields 6 and 7, the locations of zones: what they say, and the laws of it. The code is in the crates above.
#![tactic(auto)]

// The two fields of locations: field 6, from zone.tab, and field 7, from zone1970.tab.
#[derive(Clone, Copy)]
pub enum LocationField {
    Zone,
    Zone1970,
}

// The pool numbers of a country's name and code.
#[derive(Clone, Copy)]
pub struct Country {
    pub name: u64,
    pub code: u64,
}

// A location: seconds north and east, as the numbers of signed counts, the place of its first country in the field's data and how many countries there are, and the pool
// numbers of its zone ID and its comment.
#[derive(Clone, Copy)]
pub struct Spot {
    pub latitude: u64,
    pub longitude: u64,
    pub at: usize,
    pub left: u64,
    pub zone: u64,
    pub comment: u64,
}
