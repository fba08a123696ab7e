// What a walker of trees refuses.
ghost use Rattle.std.specs.Prelude.{◌≡◌, ◌≤◌};
ghost use Rattle.definitions.specs.Answers.{number_of};
ghost use Rattle.reading.specs.Faults.{refusal_of, later, Plain};

use definitions::answer::{Number, Refusal};
use pack::refusal::refused;

// A refusal of which the number and the place are told. Both stand in one number: so a Result with it is handed over in registers. With a
// number and a place in two fields, or with a Refusal, it goes through memory, and the walkers took 1.2 to 1.9 times as long on mixed
// packs and nested where trees.
#[derive(Clone, Copy)]
pub struct Fault {
    code: usize,
}

impl Fault {
    // The numbers of refusals are below.
    const NUMBERS: usize = 64;

    pub fn new(number: Number, at: usize) -> Fault
        requires { (number_of number ≤ 5) × (at ≤ 8192) }
        ensures { refusal_of result ≡ record { number = number_of number; place = at; name = 0; other = 0 } }
    {
        Fault::of(refused(number, at))
    }

    // A refusal that tells no more.
    pub fn of(refusal: Refusal) -> Fault
        requires { Plain 8192 refusal }
        ensures { refusal_of result ≡ refusal }
    {
        Fault {
            code: refusal.place * Fault::NUMBERS + refusal.number as usize,
        }
    }

    // What was refused in a part of the words that starts at a place, in the words.
    pub fn behind(self, start: usize) -> Fault
        requires { ((refusal_of self).place ≤ 8192) × (start ≤ 8192) }
        ensures { refusal_of result ≡ later start (refusal_of self) }
    {
        Fault {
            code: self.code + start * Fault::NUMBERS,
        }
    }
}

impl From<Fault> for Refusal {
    ghost from_gives = { λ f r. r ≡ refusal_of f };

    fn from(fault: Fault) -> Refusal {
        Refusal {
            number: (fault.code % Fault::NUMBERS) as u32,
            place: fault.code / Fault::NUMBERS,
            name: 0,
            other: 0,
        }
    }
}
