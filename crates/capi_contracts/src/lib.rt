// What the C functions say, of a file and of what a receiver holds, and its laws. No code.
#![tactic(auto)]
