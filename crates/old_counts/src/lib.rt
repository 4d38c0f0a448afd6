// The older edition's count: definitions and laws. Its functions stand in old_count_readers and old_count_writers.
#![tactic(auto)]
