// Head words: those that may begin a tree, in a pack of N names.
ghost use Rattle.std.specs.Prelude.{◌≡◌, ◌<◌, ◌≤◌};
ghost use Rattle.pack.specs.Packed.{Ended, EndsAt, may_begin};

use crate::kinds::Pack;
use crate::table::entry_of;
use definitions::table::Values;

// N, and of each kind of trees where its words end that may begin one: kind and value are one number, so that one comparison takes the
// place of rule and limit.
#[derive(Drop)]
pub struct Heads {
    pub names: u32,
    ends: [u32; Pack::KINDS_OF_TREES],
    pub ghost few: { names < 8192 },
    ghost ended: { Ended names ends },
}

// Heads for the N of a pack, which has no more than 4,096 names: what is noted of its relations then fits in a word.
#[derive(Drop)]
pub struct PackHeads {
    pub heads: Heads,
    pub ghost few: { heads.names ≤ 4096 },
}

// One more than the last word of a kind that may begin a tree; 0 where none may, below which no word is.
fn end_of(kind: u32, n: u32) -> u32
    requires { (64 ≤ kind) × (kind < 128) × (n < 8192) }
    ensures { EndsAt n kind result }
{
    let entry = entry_of(kind);
    if entry.sort == Pack::NO_TREE {
        return 0;
    }
    let first = kind * Pack::VALUES;
    match entry.values {
        Values::Any => first + Pack::VALUES,
        Values::AtMost(most) => first + most + 1,
        _ => first + n,
    }
}

impl Heads {
    // No kind past these is in use: of the others no word begins a tree.
    const USED: usize = (Pack::LAST_OF_TREES - Pack::FIRST_OF_TREES + 1) as usize;

    // For so many names.
    pub fn new(names: u32) -> Self
        requires { names < 8192 }
        ensures { result.names ≡ names }
    {
        let mut ends = [0u32; Pack::KINDS_OF_TREES];
        for i in 0..Heads::USED {
            ends[i] = end_of(Pack::FIRST_OF_TREES + i as u32, names);
        }
        Heads { names, ends }
    }

    // Whether a word may begin a tree of a sort. Of the kinds of trees, those of each sort stand among KINDS_OF_A_SORT.
    pub fn begins(&self, sort: u32, w: u32) -> bool
        requires { sort < 2 }
        ensures { result ≡ may_begin self.now.names sort w }
    {
        let kind = w / Pack::VALUES;
        if kind / Pack::KINDS_OF_A_SORT != Pack::FIRST_OF_TREES / Pack::KINDS_OF_A_SORT + sort {
            return false;
        }
        w < self.ends[(kind - Pack::FIRST_OF_TREES) as usize]
    }
}
