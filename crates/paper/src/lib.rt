// The instructions that write: `O`, `X` and prints, one function for each.
#![tactic(auto)]

pub mod output;
