// The declarations of an input in the blocks of a pack.
#![tactic(auto)]

pub mod inputs;
