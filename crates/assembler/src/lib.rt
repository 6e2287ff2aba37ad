// The assembler: the cells of a whole expression in two passes, left to right and back.
#![tactic(auto)]

pub mod exits;
pub mod scan;
