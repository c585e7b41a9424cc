// The promises kept, by all calls together. This crate has no code: proofs/Demands.antt has a line a theorem.
#![tactic(auto)]
