// The lookup of a name over either edition's dictionary gives the same. No code.
#![tactic(auto)]
