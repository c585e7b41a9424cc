// What the test programs share: what they read and print to, scripts of tries, and what is put into frames and lists and printed of them.
#![tactic(auto)]

pub mod input;
pub mod output;
pub mod script;
pub mod values;
