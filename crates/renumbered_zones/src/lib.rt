// A zone whose pool numbers are renumbered: what its data say, and what a lookup in it finds. No code.
#![tactic(auto)]
