// The rollback machine, sessions, feed, finish and preview, and the reckoning of demand 3: definitions and laws. The code stands in `session`.
#![tactic(auto)]
