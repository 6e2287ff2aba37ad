// The instructions of the operators beside arithmetic and output, of variables and constants: one function for each kind of mark of document 01. A
// function takes the machine's numbers by value, with the table and the buffers that its mark reads or changes, and hands the numbers back after
// one turn.
#![tactic(auto)]

pub mod stack;
