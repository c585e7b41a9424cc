// Systems, places, block IDs, blocks, samples and where they stand. This crate has no code: specs/ says what is true, proofs/ has the laws.
#![tactic(auto)]
