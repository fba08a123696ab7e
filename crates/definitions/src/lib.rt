// What document 01 defines, and the types that answers are made of. There are no functions here: specs/ has the definitions,
// a file for each part in the order in which they are read, and README.md says which sentence of 01 stands where.
#![tactic(auto)]

pub mod answer;
pub mod direction;
pub mod operation;
pub mod table;
