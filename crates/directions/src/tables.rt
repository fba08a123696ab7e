// What is read of a pack to turn its nodes.

// Its words, what aggregates over its relations do, and what its entities take, these two by name.
#[derive(Clone, Copy)]
pub struct Tables<'a> {
    pub pack: &'a [u32],
    pub acts: &'a [u32],
    pub taken: &'a [u32],
}
