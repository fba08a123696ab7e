// Which list of kinds is stamped on each relation, by the place of the list.
ghost use Rattle.std.specs.Prelude.{◌≡◌, ◌<◌, ◌≤◌, length, unwrap_or};
ghost use Rattle.chains.specs.Record.{Recorded};
ghost use Rattle.stamping.specs.Stamping.{unstamped, passed_in, unlike_in, list_for, added_for, Listed};

use chains::record::{RecordPlace, value_at};
use filtered::act::{Part, act_of, list};
use filtered::taking::{kind_in, list_at};

// The words of a pack and the same with trees resolved in place, what aggregates over its relations do, and by name whether an atom or
// Exists or a judgment of roles asks for it.
#[derive(Clone, Copy)]
struct Resolved<'a> {
    pack: &'a [u32],
    work: &'a [u32],
    acts: &'a [u32],
    asked: &'a [bool],
}

#[tactic(auto, using(std::proofs::lemmas::Bool::Decides::nat_tests, std::proofs::lemmas::List::get_or_past), unfolding(crate::specs::Stamping::unstamped, crate::specs::Stamping::unlike_in, crate::specs::Stamping::passed_in, crate::specs::Stamping::list_for, crate::specs::Stamping::list_by, crate::specs::Stamping::added_for))]
impl Resolved<'_> {
    // Whether the derivation whose slots stand at a place has no names of its own.
    fn is_unstamped(&self, slots: usize) -> bool
        requires { (2 ≤ slots) × (slots < 32768) }
        ensures { result ≡ unstamped self.now.work.now slots }
    {
        value_at(self.work, slots + 4) == 0
    }

    // Whether a list has a kind at the current slot of those that stand at a place, and not the same at the related slot.
    fn is_unlike(&self, list: u32, slots: usize) -> bool
        requires { slots < 32768 }
        ensures { result ≡ unlike_in self.now.pack.now self.now.work.now list slots }
    {
        let names = list_at(self.pack, list);
        let current = kind_in(names, value_at(self.work, slots));
        let related = kind_in(names, value_at(self.work, slots + 1));
        current.is_some() && current != related
    }

    // Whether the relation of a name, whose record starts at a place, is passed over: without slot kinds, and asked for.
    fn is_passed_over(&self, name: usize, place: RecordPlace) -> bool
        ensures { result ≡ passed_in self.now.work.now self.now.asked.now name place.at }
    {
        place.kind_count(self.work) == 0 && self.asked.get(name).copied().unwrap_or(false)
    }

    // The place of the list that is stamped on the relation whose record starts at a place.
    fn list_for(&self, place: RecordPlace) -> Option<u32>
        ensures { unwrap_or result 0 ≡ list_for self.now.pack.now self.now.work.now self.now.acts.now self.now.asked.now place.at }
    {
        let name = value_at(self.work, place.at) as usize;
        let x = act_of(self.acts, name);
        let Part::Derived(slots) = Part::from(x) else {
            return None;
        };
        let list = list(x);
        let stamped = self.is_unstamped(slots)
            && self.is_unlike(list, slots)
            && !self.is_passed_over(name, place);
        if stamped { Some(list) } else { None }
    }

    // How many words more the relation has with a list stamped on it; none at place 0, as the table of lists has it.
    fn added(&self, list: u32, place: RecordPlace) -> usize
        ensures { (result ≡ added_for self.now.pack.now self.now.work.now list place.at) × (result < 33554432) }
    {
        let names = list_at(self.pack, list).len();
        if place.kind_count(self.work) == 0 {
            names * 2
        } else {
            names
        }
    }
}

// The lists for relations that start at places, 0 for none, since no list stands at the first word. The answer is how many words more there
// are with them.
pub fn lists(
    pack: &[u32],
    work: &[u32],
    acts: &[u32],
    asked: &[bool],
    order: &[u32],
    table: &mut [u32],
) -> usize
    requires { Recorded pack.now order.now × (length table.old ≡ length order.now) × (length order.now ≤ 512) }
    ensures { Listed pack.now work.now acts.now asked.now order.now table.new result }
{
    let resolved = Resolved {
        pack,
        work,
        acts,
        asked,
    };
    let mut more: usize = 0;
    // By index: of a slice that is written through a zip a proof knows the length alone.
    for (i, &start) in order.iter().enumerate() {
        let place = RecordPlace { at: start as usize };
        let list = resolved.list_for(place).unwrap_or(0);
        table[i] = list;
        more += resolved.added(list, place);
    }
    more
}
