// Replacing an audio channel. This crate has no code: specs/ has the call's contract, proofs/ the laws and that it keeps the promises.
#![tactic(auto)]
