// Machine words: their layout, sound words, and what the rollback machine reads of words.
#![tactic(auto)]

pub mod layout;
pub mod levels;
pub mod numbers;
pub mod read;
pub mod sound_words;
