// The refusal of a name that a pack does not have.
ghost use Rattle.std.specs.Prelude.{◌≡◌};
ghost use Rattle.definitions.specs.Answers.{unknown};

use definitions::answer::{Number, Refusal};
use pack::refusal::refused;

// The refusal of a name that is not below N.
pub fn unknown_name(name: u32) -> Refusal
    ensures { Err result ≡ unknown name }
{
    Refusal {
        name,
        ..refused(Number::NotAName, 0)
    }
}
