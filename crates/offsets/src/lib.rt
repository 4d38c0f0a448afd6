// The offset code: milliseconds, to which 86,400,000 are added, so that the sum is unsigned.
#![tactic(auto)]
