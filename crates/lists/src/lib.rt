// Definitions and laws on lists and numbers; no code of its own.
#![tactic(auto)]
