// The pack: its words, what each may be, and how they are read.
// A file per idea: the numbers (kinds), the table by kind (table), the words that begin trees (heads), the reading place (cursor) and what is
// said where a word is not as it must be (refusal).
#![tactic(auto)]

pub mod cursor;
pub mod heads;
pub mod kinds;
pub mod refusal;
pub mod table;
