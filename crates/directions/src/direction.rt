// The direction of one node, from what the pack says of its relation.
ghost use Rattle.std.specs.Prelude.{◌≡◌, ◌<◌, [], ◌∷◌, IfSome};
ghost use Rattle.std.proofs.Math.Option.{some};
ghost use Rattle.definitions.specs.Places.{names_at};
ghost use Rattle.filtered.specs.Acts.{act_part};
ghost use Rattle.filtered.specs.Said.{direct_in};
ghost use Rattle.filtered.specs.Taking.{option_in};
ghost use Rattle.definitions.specs.Direction.{bearing, or_else, kind_or_zero, matched, turn, related_kind, between};
ghost use Rattle.directions.specs.Words.{typed_in, derived_in, tables_in, member_in, MemberTurned};

use crate::tables::Tables;
use chains::record::value_at;
use definitions::direction::Direction;
use filtered::act::{Part, act_of, list};
use filtered::taking::{Taken, kind_at};

// The kind at a slot of the list whose count word stands at a place. It is a number, 0 for none: a direction gives 0 for a kind that
// is not known.
pub fn kind_or_zero(pack: &[u32], place: u32, slot: u32) -> u32
    ensures { result ≡ kind_or_zero (names_at pack.now place) slot }
{
    kind_at(pack, place, slot).unwrap_or(0)
}

// A typed relation of two kinds, matched against a kind.
pub fn matched(a: u32, b: u32, kind: u32, entity: u32, current: u32, related: u32) -> Direction
    ensures { result ≡ matched (a ∷ b ∷ []) entity current related (bearing kind 0 (a ∷ b ∷ [])) }
{
    match (a == kind, b == kind) {
        (true, true) => Direction::Open(entity),
        (true, false) => Direction::Directed(0, 1, b),
        (false, true) => Direction::Directed(1, 0, a),
        (false, false) => match related {
            0 => Direction::Directed(current, related, a),
            1 => Direction::Directed(current, related, b),
            _ => Direction::Directed(current, related, 0),
        },
    }
}

// A test of membership between two kinds, over a typed relation of two kinds.
pub fn between(a: u32, b: u32, c: u32, r: u32, current: u32, related: u32) -> Direction
    ensures { result ≡ between (a ∷ b ∷ []) (c, r) current related }
{
    match (a == c && b == r, a == r && b == c) {
        (true, true) => Direction::Open(c),
        (true, false) => Direction::Directed(0, 1, 0),
        (false, true) => Direction::Directed(1, 0, 0),
        (false, false) => Direction::Directed(current, related, 0),
    }
}

impl Tables<'_> {
    // The kind by which an entity is matched: the one that it takes, or itself.
    #[tactic(auto, using(std::proofs::lemmas::List::get_or_past), unfolding(filtered::specs::Said::direct_in, filtered::specs::Said::direct_by, filtered::specs::Said::direct_of))]
    fn matching_kind(&self, entity: u32) -> u32
        ensures { result ≡ or_else (direct_in self.now.taken.now entity) entity }
    {
        match self.taken.get(entity as usize) {
            Some(x) => Taken::from(*x).direct().unwrap_or(entity),
            None => entity,
        }
    }

    // The two kinds of a typed relation, by its number.
    #[tactic(auto, unfolding(crate::specs::Words::typed_in))]
    fn typed_kinds(&self, x: u32) -> (u32, u32)
        requires { act_part x ≡ 1 }
        ensures { typed_in self.now.pack.now x ≡ some (result.0 ∷ result.1 ∷ []) }
    {
        let at = list(x) as usize;
        (value_at(self.pack, at + 1), value_at(self.pack, at + 2))
    }

    // An aggregate over a relation.
    #[tactic(auto, using(std::proofs::lemmas::Bool::Decides::nat_tests), unfolding(definitions::specs::Direction::turn, crate::specs::Words::tables_in, crate::specs::Words::typed_in, crate::specs::Words::derived_in))]
    pub fn turn(&self, relation: usize, entity: u32, current: u32, related: u32) -> Direction
        ensures { result ≡ turn (tables_in self.now.pack.now self.now.acts.now self.now.taken.now) relation entity current related }
    {
        let x = act_of(self.acts, relation);
        match Part::from(x) {
            Part::Neither => Direction::Directed(current, related, 0),
            Part::Typed => {
                let (a, b) = self.typed_kinds(x);
                matched(a, b, self.matching_kind(entity), entity, current, related)
            }
            Part::Derived(at) => {
                let r = value_at(self.pack, at + 1);
                let kind = kind_or_zero(self.pack, list(x), r);
                Direction::Directed(value_at(self.pack, at), r, kind)
            }
        }
    }

    // The current and the related kind in the slots of a derived relation, by its number, where both are known.
    #[tactic(auto, using(std::proofs::lemmas::Bool::Decides::nat_tests), unfolding(crate::specs::Words::member_in, crate::specs::Words::derived_in))]
    pub fn slot_kinds(&self, x: u32) -> Option<(u32, u32)>
        ensures { (option_in result ≡ member_in self.now.pack.now x) × IfSome result (λ m. (m.0 < 16777216) × (m.1 < 16777216)) }
    {
        let Part::Derived(at) = Part::from(x) else {
            return None;
        };
        let list = list(x);
        let c = kind_at(self.pack, list, value_at(self.pack, at))?;
        let r = kind_at(self.pack, list, value_at(self.pack, at + 1))?;
        Some((c, r))
    }

    // The kind at the related slot of a derived relation, by its number; it is the entity of what stands in its predicate, which is 0
    // where no kind is known.
    #[tactic(auto, using(std::proofs::lemmas::Bool::Decides::nat_tests), unfolding(crate::specs::Words::derived_in))]
    pub fn related_kind(&self, x: u32) -> u32
        ensures { result ≡ related_kind (derived_in self.now.pack.now x) }
    {
        match Part::from(x) {
            Part::Derived(at) => kind_or_zero(self.pack, list(x), value_at(self.pack, at + 1)),
            _ => 0,
        }
    }

    // A test of membership in a relation, in the predicate of the one with this number.
    #[tactic(auto, using(std::proofs::lemmas::Bool::Decides::nat_tests), unfolding(definitions::specs::Direction::member_direction, crate::specs::Words::tables_in, crate::specs::Words::typed_in, crate::specs::Words::derived_in))]
    pub fn member(&self, relation: usize, own: u32, current: u32, related: u32) -> Direction
        ensures { MemberTurned self.now.pack.now self.now.acts.now relation (member_in self.now.pack.now own) current related result }
    {
        let x = act_of(self.acts, relation);
        match Part::from(x) {
            Part::Neither => Direction::Directed(current, related, 0),
            Part::Typed => {
                let Some((c, r)) = self.slot_kinds(own) else {
                    return Direction::Directed(current, related, 0);
                };
                let (a, b) = self.typed_kinds(x);
                between(a, b, c, r, current, related)
            }
            Part::Derived(at) => {
                Direction::Directed(value_at(self.pack, at), value_at(self.pack, at + 1), 0)
            }
        }
    }
}
