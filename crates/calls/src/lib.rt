// Tests alone: public functions that another crate can call, called here with values worked out by hand.
#![tactic(auto)]

#[cfg(test)]
mod sessions;
#[cfg(test)]
mod texts;
