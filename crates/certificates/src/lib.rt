// A certificate from a single run, and what it promises: definitions and laws over those of model. There is no code here.
#![tactic(auto)]
