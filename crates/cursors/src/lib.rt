// The intervals of a zone one after the other: a cursor at one of them, moved on to the one that holds an instant. The zone is read once, and
// each listed interval again as the cursor comes to it; the tail's intervals are found by its rules, without the list. The functions stand in
// listed_cursors, cursor_steps and first_cursors.
#![tactic(auto)]

use intervals::Interval;
use zones::Found;

// Where a walk over a zone's intervals stands: the interval held, how many listed ones are behind it, the next of them and the place of what
// stands behind that. The zone's ending goes beside it: it stays the same, and is larger than all the rest.
#[derive(Clone, Copy)]
pub struct Cursor {
    pub held: Found,
    pub left: u64,
    pub next: Interval,
    pub place: usize,
}
