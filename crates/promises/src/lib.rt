// No code: the demands as theorems over the definitions that the calls promise to meet.
#![tactic(auto)]
