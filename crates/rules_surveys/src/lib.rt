// The ID read, the surveys, the block view and salvage. This crate has no code: specs/ has their contracts, proofs/ the laws and that they keep the promises.
#![tactic(auto)]
