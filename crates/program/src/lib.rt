// What the program `convert` does: reads the table's file, compiles it, feeds standard input to the machine and prints what each call came to. The
// program itself is the crate `convert`.
#![tactic(auto)]

mod failing;
pub mod feeding;
pub mod print;
pub mod report;
pub mod run;
pub mod table;
pub mod text;
