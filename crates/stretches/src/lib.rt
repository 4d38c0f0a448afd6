// Stretches of instants; stretch_marks puts them in a lent list. Here stands the type of its walk.
#![tactic(auto)]

// A walk over a window's instants: how many stretches have ended, and the instant since which one is open; 0, which is no instant, is none.
#[derive(Clone, Copy)]
pub struct Marks {
    pub count: usize,
    pub since: u64,
}
