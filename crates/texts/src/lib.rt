// Laws of the text format, of load, of the listing and of what the programs print. There is no code here.
#![tactic(auto)]
