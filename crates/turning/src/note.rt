// A note, taken out of its number.
ghost use Rattle.std.specs.Prelude.{◌≡◌, ◌≤◌, List, ℕ};
ghost use Rattle.directions.specs.Words.{member_in};
ghost use Rattle.turning.specs.Turns.{field_of, held, note_of};

use pack::kinds::Pack;

// Where its word stands; the number of the note inside which it stands, 0 for a rule or relation, since no note has that number; and
// whether membership is lost there.
#[derive(Clone, Copy)]
pub struct Note {
    pub place: usize,
    pub inside: usize,
    pub lost: bool,
}

impl Note {
    #[inline]
    pub fn read(code: u32) -> Note
        requires { 1 ≤ field_of code }
        ensures { result ≡ note_of code }
    {
        Note {
            place: (code % Pack::LOST) as usize - 1,
            inside: (code / Pack::INSIDE) as usize,
            lost: code / Pack::LOST % 2 == 1,
        }
    }

    // The number of the relation whose membership a note keeps; 0 where it is lost, which is that of a relation without one.
    pub fn kept(self, own: u32) -> u32
        ensures { (ws : List ℕ) → member_in ws result ≡ held self.lost (member_in ws own) }
    {
        if self.lost {
            return 0;
        }
        own
    }
}
