// The emitter: the cells of one token after another.
#![tactic(auto)]

pub mod pass;
#[cfg(test)]
mod tests;
