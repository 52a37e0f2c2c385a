// Two machines in a row: what the first writes is fed to the second through a lent middle buffer (request [10]).
#![tactic(auto)]

pub mod admit;
pub mod call;
