// The operations.

// The filtered tables.
#[derive(Clone, Copy)]
pub enum Filter {
    Direct,
    Innermost,
    Alias,
    Unresolved,
}

// The operations that only answer.
#[derive(Clone, Copy)]
pub enum Question {
    Check,
    KindsOf(u32),
    Lean(u32, u32),
}

// The operations that write words.
#[derive(Clone, Copy)]
pub enum Writing {
    Rewrite,
    AllKinds,
    Filtered(Filter),
    Resolve,
}
