// What the directory of a pack says of a name.
ghost use Rattle.std.specs.Prelude.{◌≡◌, ◌+◌, ◌-◌, ◌/◌, ◌<◌, get_or, unwrap_or, IfSome};
ghost use Rattle.chains.specs.DirectoryWord.{Reaches, starts_in, slots_in, declared_in};
ghost use Rattle.chains.specs.Declaration.{Ends, number_of_declaration};

use records::directory::Directory;

// A declaration: no kinds, the place of the count word of the list that settles it, or the name that it leads on to.
#[derive(Clone, Copy, PartialEq, Eq)]
pub enum Declaration {
    NoKinds,
    At(u32),
    Leads(u32),
}

impl Declaration {
    // Every place is below this. In the definitions, a declaration that leads on is the number of the name and this.
    pub const LEADS: u32 = 65536;

    // The name that it leads on to. It is 0 and no Option if it leads to none: that is so at the end of a path alone, where it is asked
    // for once more and not used.
    pub fn next_name(self) -> usize
        requires { Ends self }
        ensures { result ≡ number_of_declaration self - 65536 }
    {
        match self {
            Declaration::NoKinds => 0,
            Declaration::At(_) => 0,
            Declaration::Leads(name) => name as usize,
        }
    }
}

// The place where the record of its relation starts. For a name that no relation has it is 0, and no Option, since tables of places
// hold it so.
#[tactic(auto, using(crate::proofs::ByName::starts_by), unfolding(crate::specs::DirectoryWord::start_in))]
pub fn start(dir: &[u32], name: usize) -> usize
    requires { Reaches dir.now (name + 1) }
    ensures { (result ≡ get_or (starts_in dir.now) name 0) × (result < 8192) }
{
    (dir[Directory::NAMES + name] % Directory::PLACES) as usize
}

// The place of its slots, if it has a derivation. Its link is matched as the number that it is, here and below: with an enum in between the
// walks and the tables of a chain took 1.2 times as many instructions.
#[tactic(auto, using(crate::proofs::ByName::slots_by), unfolding(crate::specs::DirectoryWord::slot_in))]
pub fn slots(dir: &[u32], name: usize) -> Option<usize>
    requires { Reaches dir.now (name + 1) }
    ensures { (unwrap_or result 0 ≡ get_or (slots_in dir.now) name 0) × IfSome result (λ at. (0 < at) × (at < 16384)) }
{
    let word = dir[Directory::NAMES + name];
    let at = word % Directory::PLACES;
    match word / Directory::PLACES / Directory::OFFSETS {
        0 => None,
        behind if behind < Directory::OFFSETS => Some((at + behind) as usize),
        _ => Some((at + Directory::LEADING_SLOTS) as usize),
    }
}

// Its declaration; without a relation it has no kinds.
#[tactic(auto, unfolding(crate::specs::DirectoryWord::declared_in))]
pub fn declared(dir: &[u32], name: usize) -> Declaration
    requires { Reaches dir.now (name + 1) }
    ensures says { number_of_declaration result ≡ declared_in dir.now name }
    ensures ends { Ends result }
{
    let word = dir[Directory::NAMES + name];
    let list = word / Directory::PLACES % Directory::OFFSETS;
    if list != 0 {
        return Declaration::At(word % Directory::PLACES + list);
    }
    match word / Directory::PLACES / Directory::OFFSETS {
        link if link < Directory::OFFSETS => Declaration::NoKinds,
        link => Declaration::Leads(link - Directory::OFFSETS),
    }
}
