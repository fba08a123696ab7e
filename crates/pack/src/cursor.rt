// The reading place, and the words that are read there.
ghost use Rattle.std.specs.Prelude.{◌≡◌, [], ◌∷◌};
ghost use Rattle.pack.specs.Packed.{Ruled};
ghost use Rattle.definitions.specs.Form.{field, word, only};
ghost use Rattle.pack.specs.Readers.{word_step, field_step, skip_over};

use crate::kinds::Pack;
use crate::refusal::refused;
use crate::table::allows;
use definitions::answer::{Number, Refusal};
use definitions::table::Values;

// A place of the pack. It starts at word 0 and moves on by whole words.
#[derive(Clone, Copy, PartialEq, Eq)]
pub struct Cursor {
    pub at: usize,
}

// What a reading step finds: a value and the place after it, or a refusal. Where no value is wanted it is 0, and the type the same: so
// one set of laws serves all readers.
pub type Step = Result<(u32, Cursor), Refusal>;

impl Pack {
    // The place where reading starts.
    pub fn start() -> Cursor
        ensures { result.at ≡ 0 }
    {
        Cursor { at: 0 }
    }
}

// The words and N are given at each call, and no struct of both: the edition and N themselves are read before N is known, and the total is
// held to the number of words in its place.
impl Cursor {
    // The word at this place, whatever it is.
    pub fn word(self, s: &[u32]) -> Step
        ensures { result ≡ word_step s.now self.at }
    {
        let at = self.at;
        match s.get(at) {
            Some(w) => Ok((*w, Cursor { at: at + 1 })),
            None => Err(refused(Number::Ended, at)),
        }
    }

    // A word of this kind, whose values the table allows by this rule: its value. The rule is a constant at each call, so that no table is
    // looked up.
    pub fn field(self, s: &[u32], n: u32, kind: u32, rule: Values) -> Step
        requires { Ruled kind rule }
        ensures { result ≡ field_step n kind s.now self.at }
    {
        let (w, c) = self.word(s)?;
        if w / Pack::VALUES != kind {
            return Err(refused(Number::WrongKind, self.at));
        }
        let v = w % Pack::VALUES;
        if allows(rule, n, v) {
            Ok((v, c))
        } else {
            Err(refused(Number::WrongValue, self.at))
        }
    }

    // A word of which only the place after it is wanted.
    pub fn skip(self, s: &[u32], n: u32, kind: u32, rule: Values) -> Step
        requires { Ruled kind rule }
        ensures { result ≡ skip_over (field n kind) s.now self.at }
    {
        let (_, c) = self.field(s, n, kind, rule)?;
        Ok((0, c))
    }

    // A word of one of two kinds, which have the same rule.
    pub fn either(self, s: &[u32], n: u32, a: u32, b: u32, rule: Values) -> Step
        requires { Ruled a rule × Ruled b rule }
        ensures { result ≡ skip_over (word (only (a ∷ b ∷ [])) n) s.now self.at }
    {
        let (w, c) = self.word(s)?;
        let kind = w / Pack::VALUES;
        if kind != a {
            if kind != b {
                return Err(refused(Number::WrongKind, self.at));
            }
        }
        if allows(rule, n, w % Pack::VALUES) {
            Ok((0, c))
        } else {
            Err(refused(Number::WrongValue, self.at))
        }
    }
}
