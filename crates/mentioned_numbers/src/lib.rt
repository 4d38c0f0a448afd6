// The pool numbers that a good file mentions: each is below 8,192, the largest count of a pool. No code.
#![tactic(auto)]
