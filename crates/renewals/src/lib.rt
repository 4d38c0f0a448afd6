// The theorem of Ask 12: asking again at each interval's end meets every instant once, and misses no change. No code.
#![tactic(auto)]
