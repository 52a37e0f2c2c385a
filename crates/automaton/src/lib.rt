// Classes, states, machine words, compiling and soundness: definitions and laws. The code stands in `machine`.
#![tactic(auto)]
