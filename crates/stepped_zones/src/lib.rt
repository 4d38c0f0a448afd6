// The codes of a zone that was read stand as their first bytes say: laws, no code.
#![tactic(auto)]
