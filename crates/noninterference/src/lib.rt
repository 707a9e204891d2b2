// Noninterference with time: the theorem, the promise to a viewer, and their proofs, over the definitions of model. There is
// no code here.
#![tactic(auto)]
