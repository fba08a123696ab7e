// The records of a pack, each read after what stands before it. Where trees stand in them, a reader takes `Words`; where none do, the words
// and N, as a Cursor does.
// A file for each sort of records (defaulted, relation with derivation, rule, block), their counts (count), all of them (all),
// and what is written down on the way (directory).
#![tactic(auto)]

pub mod all;
mod block;
mod count;
mod defaulted;
mod derivation;
pub mod directory;
mod relation;
mod rule;
