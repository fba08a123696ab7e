// What the table says of a kind of word: what its value may be, whether a tree begins with it, and what follows it.

// What a word's value may be.
#[derive(Clone, Copy)]
pub enum Values {
    // No word has the kind.
    Unused,
    Any,
    AtMost(u32),
    FromOne(u32),
    AtMostOrNone(u32),
    // The number of words.
    Total,
    // A name, below N.
    Name,
    NameOrNone,
}

// What follows a word.
#[derive(Clone, Copy)]
pub enum Follows {
    // Nothing that the word itself decides.
    Nothing,
    // In a record: as many as the value says.
    Counted,
    OneScalar,
    TwoScalars,
    // As many scalars as the value says.
    Scalars,
    // A subject and as many patterns as the value says.
    Patterns,
    // A scalar, and one more where the value is odd.
    Periods,
    OneJudgment,
    // As many judgments as the value says.
    Judgments,
    // A judgment and two scalars.
    Choice,
    // Slots, a value, a flag, and a judgment where it is 1.
    Aggregate,
    // Slots, and an input's or a derived name.
    OnlyRelated,
    Slots,
    // The arguments of an atom.
    Atom,
    // The same and a judgment.
    Exists,
}

#[derive(Clone, Copy)]
pub struct Entry {
    // The sort of tree that begins with the word, or NO_TREE.
    pub sort: u32,
    pub values: Values,
    pub follows: Follows,
}
