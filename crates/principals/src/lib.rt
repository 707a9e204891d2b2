// Labels over any number of principals: their definitions and laws. There is no code here: the crate `labels` has it, for four.
#![tactic(auto)]
