// The older edition's dictionary: what its readers give. They stand in old_pairs and old_entries, the writer in old_dictionary_writers.
#![tactic(auto)]

use base::Refusal;

// What an entry comes to: the place behind it, and where the largest key so far lies; or a refusal; or its key is not larger
// than all before it.
#[derive(Clone, Copy)]
pub enum Turn {
    Next(usize, usize, usize),
    Bad(Refusal),
    Unordered,
}
