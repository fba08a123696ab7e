// The words in which trees stand, and the readers of head words and of fields.
ghost use Rattle.std.specs.Prelude.{◌≡◌, ℕ, ◌+◌, ◌≤◌, ◌<◌, [], ◌∷◌, true, length};
ghost use Rattle.definitions.specs.declared.table.Follows.TheVariants.{Aggregate, OnlyRelated, Slots, Atom};
ghost use Rattle.definitions.specs.Table.{fields_of};
ghost use Rattle.definitions.specs.Form.{word, only};
ghost use Rattle.definitions.specs.Tree.{heads as begin_with, fields};
ghost use Rattle.pack.specs.Packed.{UpTo, Compares};
ghost use Rattle.pack.specs.Readers.{skip_over};
ghost use Rattle.reading.specs.Faults.{walked};

use crate::fault::Fault;
use definitions::answer::Number;
use definitions::table::Values;
use pack::cursor::Cursor;
use pack::heads::Heads;
use pack::kinds::Pack;
use pack::table::sort_of;

// The words of a pack or of a part of it, of which there are no more than a pack may have, and which of them may begin trees.
#[derive(Clone, Copy)]
pub struct Words<'a> {
    pub words: &'a [u32],
    pub heads: &'a Heads,
    pub ghost few: { length words.now ≤ 8192 },
}

// The place is no field: it is another at each call, and what is asked of it is that it lies in these words.
impl<'a> Words<'a> {
    // The word that begins a tree of the sort, where so many levels are left: the place after it.
    pub(crate) fn head(self, at: usize, sort: u32, left: u32) -> Result<usize, Fault>
        requires { (at ≤ length self.words.now) × (sort < 2) }
        ensures { walked result ≡ skip_over (word (begin_with sort left) self.entry.heads.now.names) self.entry.words.now at }
    {
        if self.words.len() <= at {
            return Err(Fault::new(Number::Ended, at));
        }
        let w = self.words[at];
        if self.heads.begins(sort, w) {
            if 0 < left {
                return Ok(at + 1);
            }
            return Err(Fault::new(Number::TooDeep, at));
        }
        let found = sort_of(w / Pack::VALUES);
        if found != sort {
            return Err(Fault::new(Number::WrongKind, at));
        }
        if left == 0 {
            return Err(Fault::new(Number::TooDeep, at));
        }
        Err(Fault::new(Number::WrongValue, at))
    }

    // A word of this kind, with any value up to a most: the place after it. As a `Cursor` reads a field, but it answers a fault.
    pub(crate) fn up_to(self, at: usize, kind: u32, most: u32) -> Result<usize, Fault>
        requires { (at ≤ length self.words.now) × UpTo kind most }
        ensures { (n : ℕ) → walked result ≡ skip_over (word (only (kind ∷ [])) n) self.entry.words.now at }
    {
        if self.words.len() <= at {
            return Err(Fault::new(Number::Ended, at));
        }
        let w = self.words[at];
        if w / Pack::VALUES != kind {
            return Err(Fault::new(Number::WrongKind, at));
        }
        if most < w % Pack::VALUES {
            return Err(Fault::new(Number::WrongValue, at));
        }
        Ok(at + 1)
    }

    // The slots of a RelationMember.
    pub(crate) fn slots(self, at: usize) -> Result<usize, Fault>
        requires { at ≤ length self.words.now }
        ensures { (n : ℕ) → walked result ≡ skip_over (fields n (fields_of Slots)) self.entry.words.now at }
    {
        let at = self.up_to(at, Pack::CURRENT, Pack::ANY_VALUE)?;
        self.up_to(at, Pack::RELATED, Pack::ANY_VALUE)
    }

    // The arguments of a RelationAtom.
    pub(crate) fn atom(self, at: usize) -> Result<usize, Fault>
        requires { at ≤ length self.words.now }
        ensures { (n : ℕ) → walked result ≡ skip_over (fields n (fields_of Atom)) self.entry.words.now at }
    {
        self.up_to(at, Pack::ARGUMENTS, Pack::ANY_VALUE)
    }

    // The slots of an OnlyRelated, and its input's or derived name.
    pub(crate) fn only_related(self, at: usize) -> Result<usize, Fault>
        requires { at ≤ length self.words.now }
        ensures { walked result ≡ skip_over (fields self.entry.heads.now.names (fields_of OnlyRelated)) self.entry.words.now at }
    {
        let at = self.slots(at)?;
        let name = Cursor { at };
        match name.either(
            self.words,
            self.heads.names,
            Pack::INPUT,
            Pack::DERIVED,
            Values::Name,
        ) {
            Ok((_, next)) => Ok(next.at),
            Err(refusal) => Err(Fault::of(refusal)),
        }
    }

    // The fields of an aggregate.
    pub(crate) fn aggregate_words(self, at: usize) -> Result<usize, Fault>
        requires { at ≤ length self.words.now }
        ensures { (n : ℕ) → walked result ≡ skip_over (fields n (fields_of Aggregate)) self.entry.words.now at }
    {
        let at = self.slots(at)?;
        let at = self.up_to(at, Pack::VALUE, Pack::ANY_VALUE)?;
        self.up_to(at, Pack::WHERE, 1)
    }

    // The same, with one look at the end of the words where all are as they must be: without it nested where trees took 1.11 times as long.
    pub(crate) fn aggregate_fields(self, at: usize) -> Result<usize, Fault>
        requires { at ≤ length self.words.now }
        ensures { (n : ℕ) → walked result ≡ skip_over (fields n (fields_of Aggregate)) self.entry.words.now at }
    {
        if self.words.len() <= at + 3 {
            return self.aggregate_words(at);
        }
        if self.words[at] / Pack::VALUES != Pack::CURRENT {
            return self.aggregate_words(at);
        }
        if self.words[at + 1] / Pack::VALUES != Pack::RELATED {
            return self.aggregate_words(at);
        }
        if self.words[at + 2] / Pack::VALUES != Pack::VALUE {
            return self.aggregate_words(at);
        }
        self.up_to(at + 3, Pack::WHERE, 1)
    }

    // Whether a Comparison stands at a place, with a level left.
    pub(crate) fn compares(self, at: usize, left: u32) -> bool
        ensures { result ≡ true → Compares self.entry.words.now at left }
    {
        match self.words.get(at) {
            Some(w) => 0 < left && *w / Pack::VALUES == Pack::COMPARISON,
            None => false,
        }
    }
}
