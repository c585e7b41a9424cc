// The writer. This crate has no code: specs/ has its contract and every byte of a written frame, proofs/ the laws and that it keeps the promises.
#![tactic(auto)]
