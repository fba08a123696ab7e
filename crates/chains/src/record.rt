// What a relation's record says, read at the place where it starts. Past the end words are 0.
ghost use Rattle.std.specs.Prelude.{◌≡◌, ◌<◌, ◌≤◌, eqb};
ghost use Rattle.chains.specs.Record.{value_at, kind_count, flag_at, slots_place};

use pack::kinds::Pack;

// The value of the word at a place.
#[tactic(auto, unfolding(crate::specs::Record::value_at))]
pub fn value_at(pack: &[u32], at: usize) -> u32
    ensures { (result ≡ value_at pack.now at) × (result < 16777216) }
{
    pack.get(at).copied().unwrap_or(0) % Pack::VALUES
}

// The place where a record starts, low enough that no sum from it overflows.
#[derive(Clone, Copy)]
pub struct RecordPlace {
    pub at: usize,
    pub ghost near: { at ≤ 65536 },
}

#[tactic(auto, using(std::proofs::lemmas::Bool::Decides::nat_tests), unfolding(crate::specs::Record::kind_count, crate::specs::Record::flag_at, crate::specs::Record::slots_place))]
impl RecordPlace {
    // The number of a relation's slot kinds.
    pub fn kind_count(self, pack: &[u32]) -> usize
        ensures { (result ≡ kind_count pack.now self.at) × (result < 16777216) }
    {
        value_at(pack, self.at + 3) as usize
    }

    // Whether it has a derivation.
    pub fn has_derivation(self, pack: &[u32]) -> bool
        ensures { result ≡ eqb (flag_at pack.now self.at) 1 }
    {
        value_at(pack, self.at + 4 + self.kind_count(pack)) == 1
    }

    // The place of its current slot, after which the related one stands.
    pub fn slots_place(self, pack: &[u32]) -> usize
        ensures { (result ≡ slots_place pack.now self.at) × (result < 134217728) }
    {
        let at = self.at + 4 + self.kind_count(pack);
        let steps = value_at(pack, at + 2);
        if steps == Pack::NONE {
            return at + 3;
        }
        at + 3 + 3 * steps as usize
    }
}
