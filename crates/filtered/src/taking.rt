// The kinds that entities take from the derivations that name them, by name.
ghost use Rattle.std.specs.Prelude.{◌≡◌, ◌+◌, ◌<◌, ◌≤◌, ◌^◌, length, eqb, true, IfSome};
ghost use Rattle.definitions.specs.Answers.{yes_no};
ghost use Rattle.definitions.specs.Table.{pick};
ghost use Rattle.chains.specs.Record.{kind_count};
ghost use Rattle.chains.specs.DirectoryWord.{Reaches, starts_in, slots_in, names_in};
ghost use Rattle.chains.specs.PackDirectory.{ClearTable, IsDirectory};
ghost use Rattle.filtered.specs.Acts.{part_number};
ghost use Rattle.filtered.specs.Said.{direct_by, alias_of, unresolved_of};
ghost use Rattle.filtered.specs.Taking.{option_in, ListFound, KindIn, KindFound, number_of_taken, Packable, named_after, taken_after, take_at, RelationRead, RelationsRead, NamesLow, KnowsEntities, Filled};

use crate::act::{Part, list};
use chains::entry::{slots, start};
use chains::record::{RecordPlace, value_at};
use chains::settle::settle_all;
use pack::kinds::Pack;
use records::directory::Layout;

// What is known of an entity. A table packs it into one number: on the stack there is no room for a table of enums.
#[derive(Clone, Copy, PartialEq, Eq)]
pub enum Taken {
    // No derivation names it.
    Nothing,
    // A derivation names it, and it takes no kind.
    Named,
    // It takes one kind.
    One(u32),
    // It takes several.
    Several,
}

#[tactic(auto, using(std::proofs::lemmas::Bool::Decides::nat_tests), unfolding(crate::specs::Said::direct_by, crate::specs::Said::direct_of, crate::specs::Said::alias_of, crate::specs::Said::unresolved_of, crate::specs::Taking::named_after, crate::specs::Taking::taken_after))]
impl Taken {
    const ONE: u32 = 2;

    const SEVERAL: u32 = Taken::ONE + Pack::VALUES;

    // As it is packed. No `From`, since it asks that the number fits.
    fn number(self) -> u32
        requires { number_of_taken self < 2 ^ 32 }
        ensures { result ≡ number_of_taken self }
    {
        match self {
            Taken::Nothing => 0,
            Taken::Named => 1,
            Taken::One(k) => Taken::ONE + k,
            Taken::Several => Taken::SEVERAL,
        }
    }

    // After one more derivation that names it.
    fn named(self) -> Taken
        ensures { number_of_taken result ≡ named_after (number_of_taken self) }
    {
        match self {
            Taken::Nothing => Taken::Named,
            _ => self,
        }
    }

    // With one more kind; where none is known it stays as it is.
    fn with(self, kind: Option<u32>) -> Taken
        requires { IfSome kind (λ k. k < 16777216) }
        ensures { number_of_taken result ≡ taken_after (number_of_taken self) (option_in kind) }
    {
        let Some(k) = kind else {
            return self;
        };
        match self {
            Taken::Nothing | Taken::Named => Taken::One(k),
            Taken::One(only) if only == k => self,
            _ => Taken::Several,
        }
    }

    // The one kind that it takes, where it takes one.
    pub fn direct(self) -> Option<u32>
        requires { Packable self }
        ensures { option_in result ≡ direct_by (number_of_taken self) }
    {
        match self {
            Taken::One(k) if k != Pack::NONE => Some(k),
            _ => None,
        }
    }

    // Whether the entity takes a kind other than itself.
    pub fn is_alias(self, e: u32) -> bool
        requires { e < 4096 }
        ensures { yes_no result ≡ alias_of (number_of_taken self) e }
    {
        match self {
            Taken::Nothing | Taken::Named => false,
            Taken::One(k) => k != e,
            Taken::Several => true,
        }
    }

    // Whether a derivation names it and it takes no kind.
    pub fn is_unresolved(self) -> bool
        ensures { yes_no result ≡ unresolved_of (number_of_taken self) }
    {
        self == Taken::Named
    }
}

// What a number of a table says.
impl From<u32> for Taken {
    ghost from_gives = { λ x taken. (number_of_taken taken ≡ x) × Packable taken };

    fn from(x: u32) -> Taken {
        match x {
            0 => Taken::Nothing,
            1 => Taken::Named,
            Taken::SEVERAL => Taken::Several,
            _ => Taken::One(x - Taken::ONE),
        }
    }
}

// The words of the list whose count word stands at a place, as far as they stand in the pack; at place 0 there is none.
pub fn list_at(pack: &[u32], place: u32) -> &[u32]
    ensures { ListFound pack.now place result.now }
{
    let at = place as usize;
    if at == 0 || pack.len() <= at {
        return &[];
    }
    let words = &pack[at + 1..];
    let count = (pack[at] % Pack::VALUES) as usize;
    &words[..count.min(words.len())]
}

// The kind at a slot of a list of such words.
pub fn kind_in(names: &[u32], slot: u32) -> Option<u32>
    ensures { KindIn names.now slot result }
{
    names.get(slot as usize).map(|word| word % Pack::VALUES)
}

// The kind at a slot of the list whose count word stands at a place.
pub fn kind_at(pack: &[u32], place: u32, slot: u32) -> Option<u32>
    ensures { KindFound pack.now place slot result }
{
    kind_in(list_at(pack, place), slot)
}

// An entity of a derivation and the kind that it takes there; one past the table is none and passed over. The index is tested by
// hand: with `get_mut` the proof that the other entries stay was not found.
pub fn take_at(table: &mut [u32], entity: u32, kind: Option<u32>)
    requires { IfSome kind (λ k. k < 16777216) }
    ensures { table.new ≡ take_at table.old entity (option_in kind) }
{
    let e = entity as usize;
    if table.len() <= e {
        return;
    }
    table[e] = Taken::from(table[e]).named().with(kind).number();
}

// The part of a relation without derivation, whose record starts at a place: it is typed with two slot kinds.
fn typed(pack: &[u32], place: RecordPlace) -> Part
    ensures { part_number result ≡ pick (eqb (kind_count pack.now place.at) 2) 1 0 }
{
    if place.kind_count(pack) == 2 {
        Part::Typed
    } else {
        Part::Neither
    }
}

// The relation of a name: what an aggregate over it does; and with a derivation its entity takes the kind at its current slot.
fn read_relation(pack: &[u32], dir: &[u32], acts: &mut [u32], taken: &mut [u32], name: usize)
    requires { (name < length acts.old) × Reaches dir.now (name + 1) }
    ensures { RelationRead pack.now (starts_in dir.now) (slots_in dir.now) acts.old taken.old name acts.new taken.new }
{
    let x = acts[name] % Part::MARKS;
    let Some(at) = slots(dir, name) else {
        let place = RecordPlace {
            at: start(dir, name),
        };
        acts[name] = x + Part::MARKS * typed(pack, place).number();
        return;
    };
    let kind = kind_at(pack, list(x), value_at(pack, at));
    take_at(taken, value_at(pack, at + 2), kind);
    acts[name] = x + Part::MARKS * Part::Derived(at).number();
}

// The relations of these names, one after the other.
fn read_relations(pack: &[u32], dir: &[u32], names: &[u32], acts: &mut [u32], taken: &mut [u32])
    requires { NamesLow (length acts.old) names.now × Reaches dir.now (length acts.old) }
    ensures { RelationsRead pack.now (starts_in dir.now) (slots_in dir.now) names.now acts.old taken.old acts.new taken.new }
{
    for &name in names {
        read_relation(pack, dir, acts, taken, name as usize);
    }
}

// The tables of a checked pack, which hold zeros before: the marks of the chain walk become what aggregates do. The answer is the
// number of declarations read. The tables are lent one by one and no struct holds them with the directory, since who lends them reads
// each afterwards, and would have to be promised that the struct held the same.
pub fn read_tables(pack: &[u32], l: Layout, dir: &[u32], acts: &mut [u32], taken: &mut [u32]) -> u32
    requires { IsDirectory pack.now l dir.now × ClearTable l.names acts.old × Reaches dir.now (length acts.old) × ClearTable l.names taken.old }
    ensures { Filled pack.now (names_in dir.now l.relations) (starts_in dir.now) acts.new taken.new result }
{
    let names = &dir[..l.relations as usize];
    let steps = settle_all(dir, names, acts);
    read_relations(pack, dir, names, acts, taken);
    steps
}

// What is known of every entity of a checked pack; the marks and the table hold zeros before.
pub fn take_kinds(pack: &[u32], l: Layout, dir: &[u32], marks: &mut [u32], table: &mut [u32])
    requires { IsDirectory pack.now l dir.now × ClearTable l.names marks.old × Reaches dir.now (length marks.old) × ClearTable l.names table.old }
    ensures { KnowsEntities pack.now table.new }
{
    read_tables(pack, l, dir, marks, table);
}
