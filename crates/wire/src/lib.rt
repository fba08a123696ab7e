// Words as bytes, and answers as one number.
#![tactic(auto)]

pub mod answer;
pub mod bytes;
