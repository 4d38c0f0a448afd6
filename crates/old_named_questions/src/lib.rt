// The named question over an older dictionary, which stands for field 3 of a whole file: definitions and laws. Its functions stand in
// old_name_answers.
#![tactic(auto)]
