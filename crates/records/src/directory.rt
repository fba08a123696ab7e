// The directory that reading writes on its way, and the layout that it answers.
use definitions::answer::Refusal;
use pack::kinds::Pack;

// First the names of the relations in record order. Then a word for each name, 0 where no relation has it: the place of
// its relation, and what is noted of the relation, times PLACES. It stands on the stack, where there is no room for words of an enum.
#[derive(Clone, Copy)]
pub struct Directory {}

impl Directory {
    // Where the words by name begin.
    pub const NAMES: usize = Pack::MOST_RELATIONS as usize;

    // How many names a small one has, a larger one and the largest.
    pub const FEW: usize = 128;

    pub const SOME: usize = 1024;

    pub const ALL: usize = Pack::MOST_NAMES as usize;

    // How many words they have.
    pub const FEW_WORDS: usize = Directory::NAMES + Directory::FEW;

    pub const SOME_WORDS: usize = Directory::NAMES + Directory::SOME;

    pub const WORDS: usize = Directory::NAMES + Directory::ALL;

    pub const PLACES: u32 = Pack::MOST_WORDS as u32;
}

// What is noted of a relation: how far behind its place the count of the list stands that settles it, 0 if no list does;
// and, times OFFSETS, its link: 0 without a derivation, how far behind its place its slots stand, or OFFSETS and the name
// that it leads on to.
impl Directory {
    pub const OFFSETS: u32 = 64;

    // How far behind its place the count of list 9 stands, after 6, 7 and 8.
    pub const LIST_9: u32 = 3;

    // How far behind the slots the count of list 21 stands, after 17 to 20.
    pub const LIST_21: u32 = 4;

    // How far behind its place the slots stand of a relation that leads on: it has no kinds and no path.
    pub const LEADING_SLOTS: u32 = 7;
}

// Where the sorts of records stand: N, the number of relations, the places of the counts of rules and blocks, and the
// place after all; and how many notes the relations have, and how many there are in all.
#[derive(Clone, Copy)]
pub struct Layout {
    pub names: u32,
    pub relations: u32,
    pub rules: usize,
    pub blocks: usize,
    pub end: usize,
    pub noted: u32,
    pub all: u32,
}

// What checking finds: where the records stand, or the first refusal.
pub type Laid = Result<Layout, Refusal>;
