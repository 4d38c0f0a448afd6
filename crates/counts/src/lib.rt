// Counts, signed counts, and numbers in a fixed number of bytes.
#![tactic(auto)]
