// Tails that are the same but for their starts; tail_matches compares them.
#![tactic(auto)]
