// The instructions of predicates, calls aside: "`N 0 J`" and counters.
#![tactic(auto)]

pub mod conditions;
pub mod counters;
