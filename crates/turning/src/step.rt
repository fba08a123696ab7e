// What comes of one node, read in the words of the pack.
ghost use Rattle.std.specs.Prelude.{◌≡◌, ◌+◌, ◌<◌, length};
ghost use Rattle.directions.specs.Words.{SlotsFit};
ghost use Rattle.turning.specs.Turns.{value_in, kind_here};
ghost use Rattle.turning.specs.TurnPromises.{NodeStands, HasSlots, refused_at, directed_by, turned_in, allowed_in, aggregate_in, tested_in, OutFits, StepTaken};
ghost use Rattle.definitions.specs.Table.{entry_of};
ghost use Rattle.definitions.specs.declared.table.Follows.TheVariants.{OnlyRelated};

use crate::known::Known;
use crate::note::Note;
use crate::root::Root;
use definitions::answer::{Number, Refusal};
use definitions::direction::Direction;
use pack::kinds::Pack;

// Its slots and the entity of what stands inside it; its slots, where nothing stands inside it; or nothing, where it has no slots. The
// current and the related slot are two numbers here and in directions, as in 01 and so in each definition: a struct of them would be taken
// apart again in every rule.
#[derive(Clone, Copy)]
pub enum Out {
    Opens(u32, u32, u32),
    Sets(u32, u32),
    Passes,
}

// A node: its note, the entity with which it stands, and in which rule or relation.
#[derive(Clone, Copy)]
pub struct Node {
    pub note: Note,
    pub entity: u32,
    pub root: Root,
}

impl Node {
    // Its refusal.
    pub fn refused(self, number: Number, other: u32) -> Refusal
        ensures { result ≡ refused_at self number other }
    {
        self.root.refusal(self.note.place, number as u32, other)
    }

    // The slots and the kind of its direction, unless it is open.
    fn directed(self, d: Direction) -> Result<(u32, u32, u32), Refusal>
        ensures { result ≡ directed_by self d }
    {
        match d {
            Direction::Directed(current, related, kind) => Ok((current, related, kind)),
            Direction::Open(other) => Err(self.refused(Number::DirectionOpen, other)),
        }
    }
}

impl Known<'_> {
    // The relation of a node, and its slots.
    #[inline]
    fn slots(&self, at: usize) -> (usize, u32, u32)
        requires { at + 2 < length self.now.tables.pack.now }
        ensures { result ≡ (value_in self.now.tables.pack.now at, value_in self.now.tables.pack.now (at + 1), value_in self.now.tables.pack.now (at + 2)) }
    {
        let relation = (self.tables.pack[at] % Pack::VALUES) as usize;
        let current = self.tables.pack[at + 1] % Pack::VALUES;
        let related = self.tables.pack[at + 2] % Pack::VALUES;
        (relation, current, related)
    }

    // The direction of an aggregate.
    fn turned(&self, node: Node) -> Direction
        requires { HasSlots self.now.tables.pack.now node.note.place }
        ensures { (result ≡ turned_in self.now node) × SlotsFit result }
    {
        let (relation, current, related) = self.slots(node.note.place);
        self.tables.turn(relation, node.entity, current, related)
    }

    // Whether an OnlyRelated may have its input, for an owner.
    fn allowed(&self, node: Node, owner: u32) -> Result<(), Refusal>
        requires { NodeStands self.now.tables.pack.now node.note.place × ((entry_of (kind_here self.now.tables.pack.now node.note.place)).follows ≡ OnlyRelated) }
        ensures { result ≡ allowed_in self.now node owner }
    {
        let word = self.tables.pack[node.note.place + 3];
        let name = word % Pack::VALUES;
        if word / Pack::VALUES == Pack::DERIVED {
            return Err(node.refused(Number::DerivedInput, name));
        }
        let origin = node.root.origin;
        self.blocks
            .input(self.tables.pack, origin, owner, name)
            .map_err(|number| node.refused(number, name))
    }

    // An aggregate, of any kind. Inside an OnlyRelated there is no entity, since its kind is the owner of its input.
    fn aggregate(&self, node: Node, kind: u32) -> Result<Out, Refusal>
        requires { HasSlots self.now.tables.pack.now node.note.place × (kind ≡ kind_here self.now.tables.pack.now node.note.place) }
        ensures { (result ≡ aggregate_in self.now node kind) × OutFits result }
    {
        let (current, related, entity) = node.directed(self.turned(node))?;
        if kind != Pack::ONLY_RELATED {
            return Ok(Out::Opens(current, related, entity));
        }
        self.allowed(node, entity)?;
        Ok(Out::Opens(current, related, 0))
    }

    // A test of membership.
    fn membership(&self, node: Node) -> Result<Out, Refusal>
        requires { HasSlots self.now.tables.pack.now node.note.place }
        ensures { (result ≡ tested_in self.now node) × OutFits result }
    {
        let (relation, current, related) = self.slots(node.note.place);
        let own = node.note.kept(node.root.own);
        let direction = self.tables.member(relation, own, current, related);
        let (current, related, _) = node.directed(direction)?;
        Ok(Out::Sets(current, related))
    }

    // By its kind.
    pub fn step(&self, node: Node) -> Result<Out, Refusal>
        requires { NodeStands self.now.tables.pack.now node.note.place }
        ensures { StepTaken self.now node result }
    {
        let kind = self.tables.pack[node.note.place] / Pack::VALUES;
        match kind {
            Pack::RELATION_MEMBER => self.membership(node),
            Pack::COUNT..=Pack::ONLY_RELATED => self.aggregate(node, kind),
            _ => Ok(Out::Passes),
        }
    }
}
