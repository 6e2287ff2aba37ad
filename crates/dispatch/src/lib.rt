// The dispatch of a turn to the instruction of the due cell.
#![tactic(auto)]

pub mod machine;
