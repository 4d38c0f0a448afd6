// Where two whole files differ in one zone, over a window of instants: definitions and laws. The functions stand in difference_sides,
// difference_lists and file_differences.
#![tactic(auto)]

use cursors::Cursor;
use zones::ZoneEnd;

// The asked zone of a file: where the data of field 0 and those of the zone start and end, how many strings the pool has, the zone's
// ending, and a cursor at the window's first instant.
#[derive(Clone, Copy)]
pub struct Side {
    pub pool: usize,
    pub past: usize,
    pub from: usize,
    pub to: usize,
    pub count: u64,
    pub ending: ZoneEnd,
    pub cursor: Cursor,
}
