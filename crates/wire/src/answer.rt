// Answers as one number.
ghost use Rattle.std.specs.Prelude.{◌≡◌, ◌*◌, ◌/◌, ◌%◌, ◌^◌, ◌<◌, ◌≤◌, length};
ghost use Rattle.definitions.specs.Bytes.{in_bits, encode, decode, out_after};
ghost use Rattle.wire.specs.Loading.{lacks_room, FitsOutput};

use crate::bytes::store;
use definitions::answer::{Answer, Given, Number, Refusal};

// A field of an answer's number: what one of it counts, and how many values it has.
#[derive(Clone, Copy)]
pub struct Field {
    pub one: u64,
    pub values: u64,
}

// The number takes 6 bits, the place 14, the name 32 and the other 12.
impl Field {
    // How many values each has.
    pub const NUMBERS: u32 = 64;

    pub const PLACES: usize = 16384;

    pub const NAMES: u64 = 4294967296;

    pub const OTHERS: u32 = 4096;

    pub const NUMBER: Field = Field {
        one: 1,
        values: Field::NUMBERS as u64,
    };

    pub const PLACE: Field = Field {
        one: Field::NUMBER.one * Field::NUMBER.values,
        values: Field::PLACES as u64,
    };

    pub const NAME: Field = Field {
        one: Field::PLACE.one * Field::PLACE.values,
        values: Field::NAMES,
    };

    pub const OTHER: Field = Field {
        one: Field::NAME.one * Field::NAME.values,
        values: Field::OTHERS as u64,
    };

    // A value in its place; what is too large for the field is cut.
    fn put(self, value: u64) -> u64
        requires { (0 < self.values) × (self.values * self.one ≤ 2 ^ 64) }
        ensures { result ≡ value % self.values * self.one }
    {
        value % self.values * self.one
    }

    // The value that stands in a number.
    fn get(self, r: u64) -> u64
        requires { (0 < self.one) × (0 < self.values) }
        ensures { result ≡ r / self.one % self.values }
    {
        r / self.one % self.values
    }
}

fn in_bits(number: u32, place: usize, name: u32, other: u32) -> u64
    ensures { result ≡ in_bits number place name other }
{
    Field::NUMBER.put(number as u64)
        + Field::PLACE.put(place as u64)
        + Field::NAME.put(name as u64)
        + Field::OTHER.put(other as u64)
}

// A function, as `decode` is, and no `From`: neither an answer nor a number is a type of this crate.
pub fn encode(a: Answer) -> u64
    ensures { result ≡ encode a }
{
    match a {
        Ok(g) => in_bits(0, 0, g.value, g.steps),
        Err(r) => in_bits(r.number, r.place, r.name, r.other),
    }
}

// The answer that a number is of.
#[tactic(auto, using(std::proofs::lemmas::Bool::Decides::nat_tests), unfolding(definitions::specs::Bytes::decode))]
pub fn decode(r: u64) -> Answer
    ensures { result ≡ decode r }
{
    let number = Field::NUMBER.get(r) as u32;
    let place = Field::PLACE.get(r) as usize;
    let name = Field::NAME.get(r) as u32;
    let other = Field::OTHER.get(r) as u32;
    if number == 0 {
        return Ok(Given {
            value: name,
            steps: other,
        });
    }
    Err(Refusal {
        number,
        place,
        name,
        other,
    })
}

// Whether it is the refusal for want of room.
pub fn lacks_room(a: Answer) -> bool
    ensures { result ≡ lacks_room a }
{
    match a {
        Ok(_) => false,
        Err(r) => r.number == Number::NoRoom as u32,
    }
}

// As many of the words as an answer says, as bytes in the output; after a refusal none.
#[tactic(auto, unfolding(definitions::specs::Bytes::out_after))]
pub fn put(a: Answer, words: &[u32], out: &mut [u8])
    requires { FitsOutput a (length words.now) (length out.old) }
    ensures { out.new ≡ out_after a words.now out.old }
{
    if let Ok(g) = a {
        store(&words[..g.value as usize], out);
    }
}
