// The strict reads. This crate has no code: specs/ has their contracts, proofs/ the laws and that they keep the promises.
#![tactic(auto)]
