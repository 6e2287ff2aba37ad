// The interpreter: a run of a letter's code table over a store's arrays.
#![tactic(auto)]

pub mod cycle;
