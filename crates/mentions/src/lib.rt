// The mentions of pool strings in a field's data, one after the other from front to back: what a walk over them keeps and gives. The functions
// stand in zone_mentions, list_mentions and mention_steps.
#![tactic(auto)]

// Where a walk over a field's data stands between two mentions.
#[derive(Clone, Copy)]
pub enum Stage {
    // At the front of a zone.
    Zone,
    // Behind a zone's ID.
    Flag,
    // Behind an interval's name: its start, and how many intervals follow.
    Interval(u64, u64),
    // Behind a tail's standard name.
    Rule,
    // At the front of field 3.
    Aliases,
    // At the front of field 6, or of field 7, where each location has a number of countries.
    Locations(bool),
    // Before so many names in a row and so many locations behind them.
    Names(u64, u64, bool),
    // No mention follows.
    Rest,
}
