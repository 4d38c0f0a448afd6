// What closing up the pool keeps: every question answers as before, places aside. No code.
#![tactic(auto)]
