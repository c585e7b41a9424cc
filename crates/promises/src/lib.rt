// The promises: the customer's demands under his own words. This crate has no code: specs/ says what is promised, proofs/ that each promise leaves one answer.
#![tactic(auto)]
