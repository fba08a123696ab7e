// What holds of the operations as a whole: specs/ is the page of statements, README.md says which is which, proofs/ has why.
// Nothing depends on this crate, so the library and the programs are built without it.

#![tactic(auto)]
