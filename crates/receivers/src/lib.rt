// A receiver of a file's bytes in pieces, over a buffer that its caller lends; receiver_steps has its functions.
#![tactic(auto)]

// How many bytes at the buffer's front are held; the place of the first unfinished field; the ID of the field before it, 0 where there is
// none.
#[repr(C)]
#[derive(Clone, Copy)]
pub struct Receiver {
    pub held: usize,
    pub place: usize,
    pub prev: usize,
}

// A receiver after a piece, and the number given: 0, or 15.
#[derive(Clone, Copy)]
pub struct Outcome {
    pub receiver: Receiver,
    pub number: u64,
}
