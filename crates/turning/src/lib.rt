// The nodes of a pack that resolving looks at, noted in word order, and turned one after the other.
// A note taken out of its number (note), what is known of a pack (known), what comes of one node (step), rules and relations (root),
// and all notes (turns). What stamping asks for is told by them too (asked).
#![tactic(auto)]

pub mod asked;
pub mod known;
pub mod note;
pub mod root;
pub mod step;
pub mod turns;
