// A rule or relation in which turning is.
ghost use Rattle.std.specs.Prelude.{◌≡◌};
ghost use Rattle.turning.specs.TurnPromises.{RootStands, RootOpened};

use crate::known::Known;
use definitions::answer::Refusal;
use filtered::act::act_of;
use pack::kinds::Pack;

// Its name, its origin, the entity of its trees, and what `acts` has for the relation in whose predicate they stand: for a rule 0, which is
// the number of `Part::Neither`. By default it is none, and no Option: the first note is that of a rule or relation, so that none is
// looked at before one is opened.
#[derive(Clone, Copy, Default)]
pub struct Root {
    pub name: u32,
    pub origin: u32,
    pub entity: u32,
    pub own: u32,
}

impl Root {
    // The refusal of a node in it, at a place.
    pub fn refusal(self, place: usize, number: u32, other: u32) -> Refusal
        ensures { result ≡ record { number = number; place = place; name = self.name; other = other } }
    {
        Refusal {
            number,
            place,
            name: self.name,
            other,
        }
    }

    // The one whose record starts at a place.
    pub fn opened(known: &Known, at: usize) -> Root
        requires { RootStands known.now.tables.pack.now at }
        ensures { RootOpened known.now.tables.pack.now known.now.tables.acts.now at result }
    {
        let pack = known.tables.pack;
        let word = pack[at];
        let name = word % Pack::VALUES;
        let origin = pack[at + 1] % Pack::VALUES;
        if word / Pack::VALUES == Pack::RULE {
            let entity = pack[at + 2] % Pack::VALUES;
            return Root {
                name,
                origin,
                entity,
                own: 0,
            };
        }
        let own = act_of(known.tables.acts, name as usize);
        let entity = known.tables.related_kind(own);
        Root {
            name,
            origin,
            entity,
            own,
        }
    }
}
