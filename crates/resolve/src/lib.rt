// Resolve: directions of aggregates and of membership tests, from the kinds of relations.
// One operation, resolve. It stands on the notes of a pack, turned in a copy of its words (turning), on the lists that are
// stamped on relations (stamping), and on the writer (order, write, finish). Order never matters: Demand3.
#![tactic(auto)]

mod checked;
mod finish;
mod order;
pub mod resolve;
mod write;
mod writer;
