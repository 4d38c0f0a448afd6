// The preferred form of a whole file: what it is, and the laws of it. The code is in the crates above.
#![tactic(auto)]
