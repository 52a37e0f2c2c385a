// Records, tables, values, Definition 7 and direct conversion: definitions and laws. The code stands in `rules`.
#![tactic(auto)]
