// The theorems of the three demands, over the definitions of the crates below. No code.
#![tactic(auto)]
