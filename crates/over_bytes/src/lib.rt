// The operations over bytes.
#![tactic(auto)]

pub mod operations;
