// A refusal that tells its number and place.
ghost use Rattle.std.specs.Prelude.{◌≡◌};
ghost use Rattle.definitions.specs.Answers.{number_of};

use definitions::answer::{Number, Refusal};

pub fn refused(number: Number, place: usize) -> Refusal
    ensures { result ≡ record { number = number_of number; place = place; name = 0; other = 0 } }
{
    Refusal {
        number: number as u32,
        place,
        name: 0,
        other: 0,
    }
}
