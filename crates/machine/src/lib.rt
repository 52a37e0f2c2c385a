// The compiler of machine words.
#![tactic(auto)]

pub mod compile;
pub mod gather;
pub mod sets;
pub mod states;
