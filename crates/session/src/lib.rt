// Sessions over machine words: what is kept between calls, the rollback machine's run, and feed, finish and preview.
#![tactic(auto)]

pub mod call;
pub mod kept;
pub mod prepared;
pub mod run;
pub mod tally;
pub mod text;
pub mod uses;
