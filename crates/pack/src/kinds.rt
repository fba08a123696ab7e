// The kinds of words, the limits and "none": each number stands here once. The table adds what follows a kind.

#[derive(Clone, Copy)]
pub struct Pack {}

// A word is its kind, and its value below VALUES. Kinds are numbers and no enum: the format has them inside of words, where they are
// compared, and a table is looked up by them. A word is made and taken apart where it stands, by one multiplication, division or
// remainder, and by no function: so the check sees the bounds of a kind and of a value without being told them.
impl Pack {
    pub const KINDS: usize = 256;

    pub const VALUES: u32 = 16777216;

    pub const NONE: u32 = 16777215;

    // The most that a value can be: a word whose value is not held to anything.
    pub const ANY_VALUE: u32 = Pack::VALUES - 1;

    pub const LEAST_WORDS: usize = 6;

    pub const MOST_WORDS: usize = 8192;

    // A pack of so many words is small: clearing large arrays for it would take longer than the work.
    pub const FEW_WORDS: usize = 256;
}

// Notes: how many there are at most. A note's number is the place after its word, below LOST, with LOST more where membership is lost,
// and INSIDE times the number of the note inside which it stands.
impl Pack {
    pub const MOST_NOTES: u32 = 8192;

    pub const LOST: u32 = 8192;

    pub const INSIDE: u32 = 16384;
}

// Limits.
impl Pack {
    pub const MOST_NAMES: u32 = 4096;

    pub const MOST_DEFAULTED: u32 = 512;

    pub const MOST_RELATIONS: u32 = 512;

    pub const MOST_SLOTS: u32 = 8;

    pub const MOST_STEPS: u32 = 8;

    pub const MOST_RULES: u32 = 1024;

    pub const MOST_BODIES: u32 = 64;

    pub const MOST_BLOCKS: u32 = 64;

    pub const MOST_ITEMS: u32 = 1024;

    pub const MOST_PERIODS: u32 = 7;

    pub const DEPTH: u32 = 32;
}

// The kinds of the header and of relations.
impl Pack {
    pub const TOTAL: u32 = 1;

    pub const NAMES: u32 = 2;

    pub const DEFAULTED_COUNT: u32 = 3;

    pub const DEFAULTED: u32 = 4;

    pub const RELATION_COUNT: u32 = 5;

    pub const RELATION: u32 = 6;

    pub const RELATION_ORIGIN: u32 = 7;

    pub const ARITY: u32 = 8;

    pub const SLOT_KINDS: u32 = 9;

    pub const SLOT_KIND: u32 = 10;

    pub const DERIVATION: u32 = 11;

    pub const SOURCE: u32 = 12;

    pub const PATH: u32 = 13;

    pub const STEP_RELATION: u32 = 14;

    pub const STEP_CURRENT: u32 = 15;

    pub const STEP_RELATED: u32 = 16;

    pub const CURRENT_SLOT: u32 = 17;

    pub const RELATED_SLOT: u32 = 18;

    pub const ENTITY: u32 = 19;

    pub const MEMBER: u32 = 20;

    pub const SLOT_ENTITIES: u32 = 21;
}

// The kinds of rules and blocks.
impl Pack {
    pub const RULE_COUNT: u32 = 22;

    pub const RULE: u32 = 23;

    pub const RULE_ORIGIN: u32 = 24;

    pub const RULE_ENTITY: u32 = 25;

    pub const BODIES: u32 = 26;

    pub const BODY: u32 = 27;

    pub const BLOCK_COUNT: u32 = 28;

    pub const BLOCK_ORIGIN: u32 = 29;

    pub const ITEMS: u32 = 30;

    pub const ITEM: u32 = 31;

    pub const ITEM_BOOLEAN: u32 = 32;

    pub const ITEM_ENTITY: u32 = 33;
}

// The sorts of trees, as a body's word gives them: numbers, as the format has them. NO_TREE, where no tree begins, is one too, so that one
// comparison tests a head word's sort.
impl Pack {
    pub const SCALAR: u32 = 0;

    pub const JUDGMENT: u32 = 1;

    pub const NO_TREE: u32 = 2;
}

// The kinds of tree nodes; the words of trees, fields among them, have kinds from FIRST_OF_TREES to LAST_OF_TREES. The first
// KINDS_OF_A_SORT of them begin scalars, the next ones judgments.
impl Pack {
    pub const FIRST_OF_TREES: u32 = 64;

    pub const LAST_OF_TREES: u32 = Pack::ROLE_DERIVED;

    pub const KINDS_OF_A_SORT: u32 = 32;

    pub const KINDS_OF_TREES: usize = 2 * Pack::KINDS_OF_A_SORT as usize;

    pub const ONE_CHILD: u32 = 66;

    pub const TWO_CHILDREN: u32 = 67;

    pub const MAX: u32 = 70;

    pub const IF: u32 = 71;

    pub const NO_MATCH: u32 = 72;

    pub const OVER_PERIODS: u32 = 73;

    pub const COUNT: u32 = 74;

    pub const SINGLE: u32 = 77;

    pub const ONLY_RELATED: u32 = 78;

    pub const COMPARISON: u32 = 96;

    pub const AND: u32 = 97;

    pub const NOT: u32 = 100;

    pub const RELATION_MEMBER: u32 = 101;

    pub const RELATION_ATOM: u32 = 102;

    pub const EXISTS: u32 = 103;

    pub const SAME_ENTITY: u32 = 104;

    pub const ROLE_DERIVED: u32 = 106;
}

// The kinds of the fields of tree nodes.
impl Pack {
    pub const CURRENT: u32 = 80;

    pub const RELATED: u32 = 81;

    pub const INPUT: u32 = 82;

    pub const WHERE: u32 = 83;

    pub const DERIVED: u32 = 84;

    pub const ARGUMENTS: u32 = 85;

    pub const VALUE: u32 = 86;
}
