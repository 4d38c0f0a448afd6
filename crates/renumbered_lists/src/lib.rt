// Aliases and locations whose pool numbers were renumbered: they say the same with the new pool. No code.
#![tactic(auto)]
