// The laws of the model: theorems about the definitions of crate `model`, no code.
#![tactic(auto)]
