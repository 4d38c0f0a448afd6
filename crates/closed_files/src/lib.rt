// The definitions and laws of the closed file stand here; the code is in the crates above.
#![tactic(auto)]
