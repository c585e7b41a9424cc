// Headers, subcode, VAUX and AAUX: what is written and what is judged. This crate has no code: specs/ says what is true, proofs/ has the laws.
#![tactic(auto)]
