// That an outsider can't steer a release: the statement and its proof, over the definitions of model. There is no code here.
#![tactic(auto)]
