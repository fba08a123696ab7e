// The operations on chains: the kinds of all relations (all_kinds) and of one name (kinds_of); and whether a name leans on another
// (lean), by a search along sources and paths (search).
#![tactic(auto)]

pub mod all_kinds;
pub mod kinds_of;
pub mod lean;
mod search;
