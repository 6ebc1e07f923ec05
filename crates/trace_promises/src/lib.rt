// No code: what is promised of trace files, as theorems over the definitions of crate trace.
#![tactic(auto)]
