// The older edition's offset: definitions and laws. Its functions stand in old_offset_readers and old_offset_writers.
#![tactic(auto)]
