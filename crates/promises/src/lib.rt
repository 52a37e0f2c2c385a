// Every promise of the project as one theorem, and the contract of every entry point: definitions and their proof. No code.
#![tactic(auto)]
