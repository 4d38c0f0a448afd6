// The order of the used pool numbers, the most used first, ties by number; ordered_uses makes it.
#![tactic(auto)]
