// The input that an OnlyRelated node names: the blocks of an origin, and the declarations of a name in them.
ghost use Rattle.std.specs.Prelude.{◌≡◌, ◌+◌, ◌*◌, ◌<◌, ◌≤◌, IfSome};
ghost use Rattle.inputs.specs.Blocks.{item_declaration, seen_after, seen_items, item_count, seen_block, seen_blocks, allowed_as, input_in, far, AfterBlock};

use chains::record::value_at;
use definitions::answer::Number;
use pack::kinds::Pack;

// A declaration of a name: whether it is Boolean, and of which entity.
#[derive(Clone, Copy, PartialEq, Eq)]
pub struct Declaration {
    pub boolean: bool,
    pub entity: u32,
}

// The declarations of a name so far.
#[derive(Clone, Copy, PartialEq, Eq)]
pub enum Seen {
    Never,
    Once(Declaration),
    Several,
}

impl Seen {
    // And one more.
    fn and(self, one: Declaration) -> Seen
        ensures { result ≡ seen_after self one }
    {
        match self {
            Seen::Never => Seen::Once(one),
            _ => Seen::Several,
        }
    }

    // The only one is Boolean and has this owner, which is an entity.
    fn allowed(self, owner: u32) -> Result<(), Number>
        ensures { result ≡ allowed_as self owner }
    {
        let Seen::Once(one) = self else {
            return Err(Number::NotDeclaredOnce);
        };
        if !one.boolean {
            return Err(Number::NotBoolean);
        }
        if owner == 0 || one.entity != owner {
            return Err(Number::WrongOwner);
        }
        Ok(())
    }
}

// The declaration in an item that starts at a place.
fn item_declaration(pack: &[u32], at: usize) -> Declaration
    requires { at ≤ far }
    ensures { result ≡ item_declaration pack.now at }
{
    Declaration {
        boolean: value_at(pack, at + 1) == 1,
        entity: value_at(pack, at + 2),
    }
}

// So many items from a place on.
#[tactic(auto, using(crate::proofs::Loops::items_turn, crate::proofs::Loops::items_end))]
fn seen_items(pack: &[u32], first: usize, count: usize, name: u32, before: Seen) -> Seen
    requires { first + 3 * count ≤ far }
    ensures { result ≡ seen_items pack.now name first count before }
{
    let mut seen = before;
    for i in 0..count {
        let at = first + 3 * i;
        if value_at(pack, at) == name {
            seen = seen.and(item_declaration(pack, at));
        }
    }
    seen
}

// A block, by the place where its record starts.
#[derive(Clone, Copy)]
pub struct Block {
    pub at: usize,
    pub ghost near: { at ≤ 4294967296 },
}

impl Block {
    // How many items it has, if it has a sequence.
    fn item_count(self, pack: &[u32]) -> Option<usize>
        ensures { (result ≡ item_count pack.now self.at) × IfSome result (λ count. count < 16777216) }
    {
        match value_at(pack, self.at + 1) {
            Pack::NONE => None,
            count => Some(count as usize),
        }
    }

    // Its items, if it is of the origin.
    fn seen(self, pack: &[u32], origin: u32, name: u32, before: Seen) -> Result<Seen, Number>
        ensures { result ≡ seen_block pack.now origin name self.at before }
    {
        if value_at(pack, self.at) != origin {
            return Ok(before);
        }
        let Some(count) = self.item_count(pack) else {
            return Err(Number::NoSequence);
        };
        Ok(seen_items(pack, self.at + 2, count, name, before))
    }

    // The place after it.
    pub fn after(self, pack: &[u32]) -> usize
        ensures { AfterBlock pack.now self.at result }
    {
        self.at + 2 + 3 * self.item_count(pack).unwrap_or(0)
    }
}

// The blocks of a pack: the place where the record of the first one starts, and how many there are.
#[derive(Clone, Copy)]
pub struct Blocks {
    pub at: usize,
    pub count: usize,
    pub ghost near: { at ≤ 65536 },
    pub ghost few: { count ≤ 64 },
}

impl Blocks {
    // The declarations of a name in those of the origin.
    #[tactic(auto, using(crate::proofs::Loops::blocks_turn, crate::proofs::Loops::blocks_end))]
    fn seen(self, pack: &[u32], origin: u32, name: u32) -> Result<Seen, Number>
        ensures { result ≡ seen_blocks pack.now origin name self.at self.count Seen.Never }
    {
        let mut seen = Seen::Never;
        let mut at = self.at;
        for _ in 0..self.count {
            let block = Block { at };
            seen = block.seen(pack, origin, name, seen)?;
            at = block.after(pack);
        }
        Ok(seen)
    }

    // Whether a name and its owner may be an input; else the number of its refusal.
    #[tactic(auto, unfolding(crate::specs::Blocks::input_in))]
    pub fn input(self, pack: &[u32], origin: u32, owner: u32, name: u32) -> Result<(), Number>
        ensures { result ≡ input_in pack.now self.at self.count origin owner name }
    {
        self.seen(pack, origin, name)?.allowed(owner)
    }
}
