// The walk to the asked zone of a file. Field 0 and every zone before that one are checked, and the walk stops there without reading it: a
// question, and every other reader of a zone, goes on from the place that it gives. The functions stand in
// first_fields and asked_zones.
#![tactic(auto)]

use base::Refusal;

// The field of the asked zone: the place of its ID byte, where its data start and end, and how many strings the pool has.
#[derive(Clone, Copy)]
pub struct Spot {
    pub place: usize,
    pub start: usize,
    pub past: usize,
    pub count: usize,
}

// What the walk comes to. Cut and End are the two ways of having too few bytes: inside the version or a field, and at the end of one.
#[derive(Clone, Copy)]
pub enum Located {
    Found(Spot),
    Refused(Refusal, usize),
    Cut(usize),
    End(usize),
}

// Where the data of field 0 start and end, or what the walk comes to before it.
#[derive(Clone, Copy)]
pub enum First {
    Pool(usize, usize),
    Refused(Refusal, usize),
    Cut(usize),
    End(usize),
}

// What a zone says by its ID: it is the asked one, or another, or its fault.
#[derive(Clone, Copy)]
pub enum Judged {
    Here,
    Keep,
    Fault(Refusal),
}
