// Derived relations with equal kinds in both slots.
ghost use Rattle.std.specs.Prelude.{◌≡◌};
ghost use Rattle.chains.specs.Record.{value_at};
ghost use Rattle.filtered.specs.Taking.{option_in};
ghost use Rattle.directions.specs.Words.{equal_in, first_equal};

use crate::tables::Tables;
use chains::record::value_at;
use filtered::act::act_of;

impl Tables<'_> {
    // Whether a name is that of a derived relation with equal kinds there.
    #[tactic(auto, using(crate::proofs::EqualLaws::equal_known, crate::proofs::EqualLaws::equal_unknown))]
    pub fn equal_kinds(&self, name: usize) -> bool
        ensures { result ≡ equal_in self.now.pack.now self.now.acts.now name }
    {
        match self.slot_kinds(act_of(self.acts, name)) {
            Some((c, r)) => c == r,
            None => false,
        }
    }

    // The first defaulted name of a checked pack with equal kinds.
    #[tactic(auto, using(crate::proofs::EqualLaws::look, crate::proofs::EqualLaws::found, crate::proofs::EqualLaws::look_on, crate::proofs::EqualLaws::looked))]
    pub fn first_equal(&self) -> Option<u32>
        ensures { option_in result ≡ first_equal self.now.pack.now self.now.acts.now 3 (value_at self.now.pack.now 2) }
    {
        let count = value_at(self.pack, 2) as usize;
        for i in 0..count {
            let name = value_at(self.pack, 3 + i);
            if self.equal_kinds(name as usize) {
                return Some(name);
            }
        }
        None
    }
}
