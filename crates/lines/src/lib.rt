// The program's question lines (01, "One whole file"), and lines out of blocks of input: what their readers give. They
// stand in parsed_lines and gathered_lines.
#![tactic(auto)]

// The mark of a question line.
#[derive(Clone, Copy)]
pub enum Kind {
    Plain,
    Part,
    All,
}

// What a part of a block gives to the line that has begun.
#[derive(Clone, Copy)]
pub enum Gathered {
    // The line is whole: how many bytes of it are held, and how many of the part it took, its line feed among them.
    Whole(usize, usize),
    // The part ends in the line: how many bytes of it are held.
    Begun(usize),
}
