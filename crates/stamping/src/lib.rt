// Stamping: which list of kinds each relation of a pack with resolved trees takes.
#![tactic(auto)]

pub mod lists;
