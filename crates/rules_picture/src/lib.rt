// Picture slots: which macroblock stands where. This crate has no code: specs/ says what is true, proofs/ has the laws.
#![tactic(auto)]
