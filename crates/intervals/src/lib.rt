// The listed intervals of a zone: what a walk over them keeps, and what its readers give.
#![tactic(auto)]

#[derive(Clone, Copy)]
pub struct Interval {
    pub start: u64,
    pub name: u64,
    pub wall: u64,
    pub savings: u64,
}

// What a walk over intervals keeps: the interval that holds the instant so far, the first start after the instant (end of time while
// there is none), and the last start.
#[derive(Clone, Copy)]
pub struct Scan {
    pub held: Interval,
    pub end: u64,
    pub last: u64,
}
