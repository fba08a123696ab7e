// What is read of a pack (tables); the direction of one node, from what it says of its relation (direction); and relations with equal
// kinds in both slots (equal).
// Its definitions are those of resolving, from the direction of one node to the whole pack.
#![tactic(auto)]

pub mod direction;
pub mod equal;
pub mod tables;
