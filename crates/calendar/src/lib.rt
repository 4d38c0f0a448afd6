// The proleptic Gregorian calendar: definitions and laws. Its functions stand in dates.
#![tactic(auto)]
