// The transition code: marks, hours after the previous transition, minutes since 1800, and ticks.
#![tactic(auto)]

// An hour and a minute in ticks, and 1800-01-01T00:00Z as an instant.
pub const HOUR: u64 = 36000000000;

pub const MINUTE: u64 = 600000000;

pub const YEAR_1800: u64 = 693937152000000000;
