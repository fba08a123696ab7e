// The chain walks: what relations inherit from their sources.
// What the directory says of a name (entry), what a record says (record), the walk over the directory (settle), and the refusal of a
// name (unknown). They serve the crates above.
#![tactic(auto)]

pub mod entry;
pub mod record;
pub mod settle;
pub mod unknown;
