// What an operation answers.

// 01's number with its place, name and other; fields that 01 does not mention are 0. C reads the number, and an answer that comes back as a
// number may hold any, so it is no `Number` here.
#[derive(Clone, Copy, PartialEq, Eq)]
pub struct Refusal {
    pub number: u32,
    pub place: usize,
    pub name: u32,
    pub other: u32,
}

// The numbers of refusals, named as include/cogunwa.h names them: first those of Check, which every operation gives for what is no
// pack, then those of resolving, then those of what is handed over with a pack.
#[derive(Clone, Copy, PartialEq, Eq)]
pub enum Number {
    // The bytes are not whole words, or too few or too many.
    WrongLength = 1,
    // A word is of the wrong kind.
    WrongKind = 2,
    // The pack has ended where one more word is due.
    Ended = 3,
    // A word has a value that is not allowed.
    WrongValue = 4,
    // A tree node is too deep.
    TooDeep = 5,
    // A defaulted name is not above the one before.
    NotRising = 6,
    // A relation has a name that was used before.
    NameUsed = 7,
    // Words are left over after the last block.
    LeftOver = 8,
    // A defaulted relation has equal kinds in both slots.
    EqualKinds = 9,
    // The direction of a node is open.
    DirectionOpen = 10,
    // An OnlyRelated asks for a derived name.
    DerivedInput = 11,
    // It asks for an input, but a block of the citing origin is no sequence.
    NoSequence = 12,
    // For one that is not declared exactly once.
    NotDeclaredOnce = 13,
    // For one that is not Boolean.
    NotBoolean = 14,
    // For one of another entity, or of none.
    WrongOwner = 15,
    // The output has too few words, or the result would have too many.
    NoRoom = 16,
    // A name is not one of the pack's.
    NotAName = 17,
}

// What an answer says that is no refusal: a value and a number of steps, each 0 where an operation has none. Of a yes the value is 1, of
// a no it is 0: C is handed one number for all of them.
#[derive(Clone, Copy, PartialEq, Eq)]
pub struct Given {
    pub value: u32,
    pub steps: u32,
}

pub type Answer = Result<Given, Refusal>;
