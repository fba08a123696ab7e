// The direction of a node.

// How a node comes out: its slots and the kind that results; or its direction is open, between slots of this kind or entity. No
// Result: neither is a failure.
#[derive(Clone, Copy)]
pub enum Direction {
    Directed(u32, u32, u32),
    Open(u32),
}
