// The table: for each kind of word what its value may be, whether a tree begins with it, and what follows it.
ghost use Rattle.std.specs.Prelude.{◌≡◌, ◌<◌};
ghost use Rattle.definitions.specs.declared.table.Follows.TheVariants.{Patterns};
ghost use Rattle.definitions.specs.Table.{allowed, how_many, entry_of};

use crate::kinds::Pack;
use definitions::table::{Entry, Follows, Values};

const UNUSED: Entry = Entry {
    sort: Pack::NO_TREE,
    values: Values::Unused,
    follows: Follows::Nothing,
};

static TABLE: [Entry; Pack::KINDS] = [
    UNUSED,
    Entry {
        sort: Pack::NO_TREE,
        values: Values::Total,
        follows: Follows::Nothing,
    }, // 1 total
    Entry {
        sort: Pack::NO_TREE,
        values: Values::FromOne(Pack::MOST_NAMES),
        follows: Follows::Nothing,
    }, // 2 N
    Entry {
        sort: Pack::NO_TREE,
        values: Values::AtMost(Pack::MOST_DEFAULTED),
        follows: Follows::Counted,
    }, // 3 defaulted names
    Entry {
        sort: Pack::NO_TREE,
        values: Values::Name,
        follows: Follows::Nothing,
    }, // 4 defaulted name
    Entry {
        sort: Pack::NO_TREE,
        values: Values::AtMost(Pack::MOST_RELATIONS),
        follows: Follows::Counted,
    }, // 5 relations
    Entry {
        sort: Pack::NO_TREE,
        values: Values::Name,
        follows: Follows::Nothing,
    }, // 6 relation
    Entry {
        sort: Pack::NO_TREE,
        values: Values::NameOrNone,
        follows: Follows::Nothing,
    }, // 7 origin
    Entry {
        sort: Pack::NO_TREE,
        values: Values::Any,
        follows: Follows::Nothing,
    }, // 8 arity
    Entry {
        sort: Pack::NO_TREE,
        values: Values::AtMost(Pack::MOST_SLOTS),
        follows: Follows::Counted,
    }, // 9 slot kinds
    Entry {
        sort: Pack::NO_TREE,
        values: Values::Name,
        follows: Follows::Nothing,
    }, // 10 slot kind
    Entry {
        sort: Pack::NO_TREE,
        values: Values::AtMost(1),
        follows: Follows::Counted,
    }, // 11 derivation
    Entry {
        sort: Pack::NO_TREE,
        values: Values::NameOrNone,
        follows: Follows::Nothing,
    }, // 12 source
    Entry {
        sort: Pack::NO_TREE,
        values: Values::AtMostOrNone(Pack::MOST_STEPS),
        follows: Follows::Counted,
    }, // 13 path
    Entry {
        sort: Pack::NO_TREE,
        values: Values::Name,
        follows: Follows::Nothing,
    }, // 14 relation of a step
    Entry {
        sort: Pack::NO_TREE,
        values: Values::Any,
        follows: Follows::Nothing,
    }, // 15 its current slot
    Entry {
        sort: Pack::NO_TREE,
        values: Values::Any,
        follows: Follows::Nothing,
    }, // 16 its related slot
    Entry {
        sort: Pack::NO_TREE,
        values: Values::Any,
        follows: Follows::Nothing,
    }, // 17 current slot
    Entry {
        sort: Pack::NO_TREE,
        values: Values::Any,
        follows: Follows::Nothing,
    }, // 18 related slot
    Entry {
        sort: Pack::NO_TREE,
        values: Values::NameOrNone,
        follows: Follows::Nothing,
    }, // 19 entity
    Entry {
        sort: Pack::NO_TREE,
        values: Values::NameOrNone,
        follows: Follows::Nothing,
    }, // 20 member relation
    Entry {
        sort: Pack::NO_TREE,
        values: Values::AtMost(Pack::MOST_SLOTS),
        follows: Follows::Counted,
    }, // 21 slot entities
    Entry {
        sort: Pack::NO_TREE,
        values: Values::AtMost(Pack::MOST_RULES),
        follows: Follows::Counted,
    }, // 22 rules
    Entry {
        sort: Pack::NO_TREE,
        values: Values::Name,
        follows: Follows::Nothing,
    }, // 23 citing name
    Entry {
        sort: Pack::NO_TREE,
        values: Values::NameOrNone,
        follows: Follows::Nothing,
    }, // 24 origin
    Entry {
        sort: Pack::NO_TREE,
        values: Values::Name,
        follows: Follows::Nothing,
    }, // 25 entity
    Entry {
        sort: Pack::NO_TREE,
        values: Values::FromOne(Pack::MOST_BODIES),
        follows: Follows::Counted,
    }, // 26 bodies
    Entry {
        sort: Pack::NO_TREE,
        values: Values::AtMost(1),
        follows: Follows::Nothing,
    }, // 27 sort of a body
    Entry {
        sort: Pack::NO_TREE,
        values: Values::AtMost(Pack::MOST_BLOCKS),
        follows: Follows::Counted,
    }, // 28 blocks
    Entry {
        sort: Pack::NO_TREE,
        values: Values::NameOrNone,
        follows: Follows::Nothing,
    }, // 29 origin
    Entry {
        sort: Pack::NO_TREE,
        values: Values::AtMostOrNone(Pack::MOST_ITEMS),
        follows: Follows::Counted,
    }, // 30 items
    Entry {
        sort: Pack::NO_TREE,
        values: Values::NameOrNone,
        follows: Follows::Nothing,
    }, // 31 item
    Entry {
        sort: Pack::NO_TREE,
        values: Values::AtMost(1),
        follows: Follows::Nothing,
    }, // 32 Boolean
    Entry {
        sort: Pack::NO_TREE,
        values: Values::NameOrNone,
        follows: Follows::Nothing,
    }, // 33 entity
    UNUSED,
    UNUSED,
    UNUSED,
    UNUSED,
    UNUSED,
    UNUSED,
    UNUSED,
    UNUSED,
    UNUSED,
    UNUSED,
    UNUSED,
    UNUSED,
    UNUSED,
    UNUSED,
    UNUSED,
    UNUSED,
    UNUSED,
    UNUSED,
    UNUSED,
    UNUSED,
    UNUSED,
    UNUSED,
    UNUSED,
    UNUSED,
    UNUSED,
    UNUSED,
    UNUSED,
    UNUSED,
    UNUSED,
    UNUSED,
    Entry {
        sort: Pack::SCALAR,
        values: Values::Any,
        follows: Follows::Nothing,
    }, // 64 leaf
    Entry {
        sort: Pack::SCALAR,
        values: Values::Name,
        follows: Follows::Nothing,
    }, // 65 Derived
    Entry {
        sort: Pack::SCALAR,
        values: Values::Any,
        follows: Follows::OneScalar,
    }, // 66 one child
    Entry {
        sort: Pack::SCALAR,
        values: Values::Any,
        follows: Follows::TwoScalars,
    }, // 67 two children
    Entry {
        sort: Pack::SCALAR,
        values: Values::Any,
        follows: Follows::Scalars,
    }, // 68 Add
    Entry {
        sort: Pack::SCALAR,
        values: Values::Any,
        follows: Follows::Scalars,
    }, // 69 Min
    Entry {
        sort: Pack::SCALAR,
        values: Values::Any,
        follows: Follows::Scalars,
    }, // 70 Max
    Entry {
        sort: Pack::SCALAR,
        values: Values::AtMost(0),
        follows: Follows::Choice,
    }, // 71 If
    Entry {
        sort: Pack::SCALAR,
        values: Values::Any,
        follows: Follows::Patterns,
    }, // 72 NoMatch
    Entry {
        sort: Pack::SCALAR,
        values: Values::AtMost(Pack::MOST_PERIODS),
        follows: Follows::Periods,
    }, // 73 OverPeriods
    Entry {
        sort: Pack::SCALAR,
        values: Values::Name,
        follows: Follows::Aggregate,
    }, // 74 Count
    Entry {
        sort: Pack::SCALAR,
        values: Values::Name,
        follows: Follows::Aggregate,
    }, // 75 Sum
    Entry {
        sort: Pack::SCALAR,
        values: Values::Name,
        follows: Follows::Aggregate,
    }, // 76 Extreme
    Entry {
        sort: Pack::SCALAR,
        values: Values::Name,
        follows: Follows::Aggregate,
    }, // 77 Single
    Entry {
        sort: Pack::SCALAR,
        values: Values::Name,
        follows: Follows::OnlyRelated,
    }, // 78 OnlyRelated
    UNUSED,
    Entry {
        sort: Pack::NO_TREE,
        values: Values::Any,
        follows: Follows::Nothing,
    }, // 80 current slot
    Entry {
        sort: Pack::NO_TREE,
        values: Values::Any,
        follows: Follows::Nothing,
    }, // 81 related slot
    Entry {
        sort: Pack::NO_TREE,
        values: Values::Name,
        follows: Follows::Nothing,
    }, // 82 input
    Entry {
        sort: Pack::NO_TREE,
        values: Values::AtMost(1),
        follows: Follows::Nothing,
    }, // 83 where
    Entry {
        sort: Pack::NO_TREE,
        values: Values::Name,
        follows: Follows::Nothing,
    }, // 84 derived
    Entry {
        sort: Pack::NO_TREE,
        values: Values::Any,
        follows: Follows::Nothing,
    }, // 85 arguments
    Entry {
        sort: Pack::NO_TREE,
        values: Values::Any,
        follows: Follows::Nothing,
    }, // 86 value
    UNUSED,
    UNUSED,
    UNUSED,
    UNUSED,
    UNUSED,
    UNUSED,
    UNUSED,
    UNUSED,
    UNUSED,
    Entry {
        sort: Pack::JUDGMENT,
        values: Values::Any,
        follows: Follows::TwoScalars,
    }, // 96 Comparison
    Entry {
        sort: Pack::JUDGMENT,
        values: Values::Any,
        follows: Follows::Judgments,
    }, // 97 And
    Entry {
        sort: Pack::JUDGMENT,
        values: Values::Any,
        follows: Follows::Judgments,
    }, // 98 Or
    Entry {
        sort: Pack::JUDGMENT,
        values: Values::Any,
        follows: Follows::Judgments,
    }, // 99 ExactlyOne
    Entry {
        sort: Pack::JUDGMENT,
        values: Values::AtMost(0),
        follows: Follows::OneJudgment,
    }, // 100 Not
    Entry {
        sort: Pack::JUDGMENT,
        values: Values::Name,
        follows: Follows::Slots,
    }, // 101 RelationMember
    Entry {
        sort: Pack::JUDGMENT,
        values: Values::Name,
        follows: Follows::Atom,
    }, // 102 RelationAtom
    Entry {
        sort: Pack::JUDGMENT,
        values: Values::Name,
        follows: Follows::Exists,
    }, // 103 Exists
    Entry {
        sort: Pack::JUDGMENT,
        values: Values::Any,
        follows: Follows::Nothing,
    }, // 104 SameEntity
    Entry {
        sort: Pack::JUDGMENT,
        values: Values::Name,
        follows: Follows::Nothing,
    }, // 105 Derived
    Entry {
        sort: Pack::JUDGMENT,
        values: Values::Any,
        follows: Follows::Nothing,
    }, // 106 RoleDerived
    UNUSED,
    UNUSED,
    UNUSED,
    UNUSED,
    UNUSED,
    UNUSED,
    UNUSED,
    UNUSED,
    UNUSED,
    UNUSED,
    UNUSED,
    UNUSED,
    UNUSED,
    UNUSED,
    UNUSED,
    UNUSED,
    UNUSED,
    UNUSED,
    UNUSED,
    UNUSED,
    UNUSED,
    UNUSED,
    UNUSED,
    UNUSED,
    UNUSED,
    UNUSED,
    UNUSED,
    UNUSED,
    UNUSED,
    UNUSED,
    UNUSED,
    UNUSED,
    UNUSED,
    UNUSED,
    UNUSED,
    UNUSED,
    UNUSED,
    UNUSED,
    UNUSED,
    UNUSED,
    UNUSED,
    UNUSED,
    UNUSED,
    UNUSED,
    UNUSED,
    UNUSED,
    UNUSED,
    UNUSED,
    UNUSED,
    UNUSED,
    UNUSED,
    UNUSED,
    UNUSED,
    UNUSED,
    UNUSED,
    UNUSED,
    UNUSED,
    UNUSED,
    UNUSED,
    UNUSED,
    UNUSED,
    UNUSED,
    UNUSED,
    UNUSED,
    UNUSED,
    UNUSED,
    UNUSED,
    UNUSED,
    UNUSED,
    UNUSED,
    UNUSED,
    UNUSED,
    UNUSED,
    UNUSED,
    UNUSED,
    UNUSED,
    UNUSED,
    UNUSED,
    UNUSED,
    UNUSED,
    UNUSED,
    UNUSED,
    UNUSED,
    UNUSED,
    UNUSED,
    UNUSED,
    UNUSED,
    UNUSED,
    UNUSED,
    UNUSED,
    UNUSED,
    UNUSED,
    UNUSED,
    UNUSED,
    UNUSED,
    UNUSED,
    UNUSED,
    UNUSED,
    UNUSED,
    UNUSED,
    UNUSED,
    UNUSED,
    UNUSED,
    UNUSED,
    UNUSED,
    UNUSED,
    UNUSED,
    UNUSED,
    UNUSED,
    UNUSED,
    UNUSED,
    UNUSED,
    UNUSED,
    UNUSED,
    UNUSED,
    UNUSED,
    UNUSED,
    UNUSED,
    UNUSED,
    UNUSED,
    UNUSED,
    UNUSED,
    UNUSED,
    UNUSED,
    UNUSED,
    UNUSED,
    UNUSED,
    UNUSED,
    UNUSED,
    UNUSED,
    UNUSED,
    UNUSED,
    UNUSED,
    UNUSED,
    UNUSED,
    UNUSED,
    UNUSED,
    UNUSED,
    UNUSED,
    UNUSED,
    UNUSED,
    UNUSED,
    UNUSED,
    UNUSED,
    UNUSED,
    UNUSED,
    UNUSED,
    UNUSED,
    UNUSED,
];

// The entry of a kind: a number below 256, since it is what a word has above its value.
pub fn entry_of(kind: u32) -> Entry
    requires { kind < 256 }
    ensures { result ≡ entry_of kind }
{
    TABLE[kind as usize]
}

// The sort of tree that begins with a word of this kind, or NO_TREE.
pub fn sort_of(kind: u32) -> u32
    requires { kind < 256 }
    ensures { result ≡ (entry_of kind).sort }
{
    entry_of(kind).sort
}

// Whether a rule allows a value, which is held to n: the total to the number of words, a name to N. One more than none is 0
// modulo VALUES, so that a name or none takes one comparison.
pub fn allows(rule: Values, n: u32, v: u32) -> bool
    requires { v < 16777216 }
    ensures { result ≡ allowed rule n v }
{
    match rule {
        Values::Unused => false,
        Values::Any => true,
        Values::AtMost(most) => v <= most,
        Values::FromOne(most) => 1 <= v && v <= most,
        Values::AtMostOrNone(most) => v <= most || v == Pack::NONE,
        Values::Total => v == n,
        Values::Name => v < n,
        Values::NameOrNone => (v + 1) % Pack::VALUES <= n,
    }
}

// How many follow a word of the value v, where they are of one sort.
pub fn how_many(follows: Follows, v: u32) -> u32
    requires { follows ≡ Patterns → v < 16777216 }
    ensures { result ≡ how_many follows v }
{
    match follows {
        Follows::OneScalar => 1,
        Follows::TwoScalars => 2,
        Follows::Scalars => v,
        Follows::Patterns => v + 1,
        Follows::Periods => 1 + v % 2,
        Follows::OneJudgment => 1,
        Follows::Judgments => v,
        _ => 0,
    }
}

// How many children follow a word of this kind and the value v, where they are of one sort.
pub fn children(kind: u32, v: u32) -> u32
    requires { (kind < 256) × ((entry_of kind).follows ≡ Patterns → v < 16777216) }
    ensures { result ≡ how_many (entry_of kind).follows v }
{
    how_many(entry_of(kind).follows, v)
}
