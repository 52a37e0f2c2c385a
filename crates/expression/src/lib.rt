// Expressions typed at the station, and the symbols that they are made of.
#![tactic(auto)]

pub mod number;
pub mod part;
pub mod reader;
pub mod symbol;
