// The filtered tables: the kinds that entities take from derivations.
// One operation, filtered, for four tables. It stands on what each entity takes (taking) and, for innermost kinds, on the walk
// along direct kinds (inner). With what entities take stands what an aggregate over each relation does (act).
#![tactic(auto)]

pub mod act;
pub mod filtered;
mod inner;
pub mod taking;
