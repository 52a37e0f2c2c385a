// A station's way to use the engine: a table and an input in two pieces, with what the promises say of it.
#![tactic(auto)]

mod course;
pub mod two;
