// The check of a rule number: whether some input makes the definition choose the rule, and such an input.
#![tactic(auto)]

pub mod check;
pub mod search;
