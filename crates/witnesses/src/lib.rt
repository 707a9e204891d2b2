// Machines on which the theorems of model are shown to ask nothing in vain. There is no code here.
#![tactic(auto)]
