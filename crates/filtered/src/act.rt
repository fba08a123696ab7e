// What an aggregate over a relation does, in one number for each name.
ghost use Rattle.std.specs.Prelude.{◌≡◌, ◌<◌, get_or};
ghost use Rattle.filtered.specs.Acts.{act_part, act_list, part_number, PartFits};

use chains::entry::Declaration;
use chains::settle::Mark;

// What it does by the relation's slots. A table packs it into one number with the mark of the list that settles the relation's
// name; a number with both is handed on as it is, and each who reads it takes out what it wants.
#[derive(Clone, Copy, PartialEq, Eq)]
pub enum Part {
    // The relation is neither typed nor derived.
    Neither,
    // It is typed by the two names of its list.
    Typed,
    // It is derived, and its slots stand at a place.
    Derived(usize),
}

impl Part {
    pub const MARKS: u32 = 2 * Declaration::LEADS;

    // As it is packed. No `From`, since it asks that the number fits.
    pub fn number(self) -> u32
        requires { part_number self < 32768 }
        ensures { result ≡ part_number self }
    {
        match self {
            Part::Neither => 0,
            Part::Typed => 1,
            Part::Derived(at) => at as u32,
        }
    }
}

// The part in the number of a name.
impl From<u32> for Part {
    ghost from_gives = { λ x part. (part_number part ≡ act_part x) × PartFits part };

    fn from(x: u32) -> Part {
        match x / Part::MARKS {
            0 => Part::Neither,
            1 => Part::Typed,
            at => Part::Derived(at as usize),
        }
    }
}

// The number of a name, as the table has it; past the table it is 0.
pub fn act_of(acts: &[u32], name: usize) -> u32
    ensures { result ≡ get_or acts.now name 0 }
{
    acts.get(name).copied().unwrap_or(0)
}

// The place of the list; 0, as everywhere a list is looked up by its place, for none.
pub fn list(x: u32) -> u32
    ensures { (result ≡ act_list x) × (result < 131072) }
{
    Mark::from(x % Part::MARKS).answer()
}
