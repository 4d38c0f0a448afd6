// Files that differ in the paddings of their sizes: their content and preferred file are the same. No code.
#![tactic(auto)]
