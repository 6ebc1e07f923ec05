// The bench without its input and output: what each line answers.
#![tactic(auto)]

pub mod answer;
