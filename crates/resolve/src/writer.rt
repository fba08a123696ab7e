// Words that are written one after the other into a slice. `pack` are the words in which the lists stand.
ghost use Rattle.std.specs.Prelude.{◌≡◌, [], ◌∷◌, ◌≤◌, ◌<◌, length};

use crate::write::copy;
use chains::record::RecordPlace;
use filtered::taking::list_at;
use pack::kinds::Pack;

// The slice, and the running place: how many words of it are written.
#[derive(Drop)]
pub struct Writer<'a> {
    out: &'a mut [u32],
    pub to: usize,
    ghost within: { to ≤ length out.now },
    ghost few: { length out.now ≤ 8192 },
}

// Words.
impl<'a> Writer<'a> {
    ghost use Rattle.resolve.specs.Writing.{HasRoom, Begins, Writes};

    pub fn new(out: &'a mut [u32]) -> Writer<'a>
        requires { length out.old ≤ 8192 }
        ensures same_reference { result.out.ghost_name ≡ out.entry.ghost_name }
        ensures begins { Begins result out.old }
    {
        Writer { out, to: 0 }
    }

    pub fn put_word(&mut self, word: u32)
        requires { HasRoom self.old (word ∷ []) }
        ensures { Writes self.old (word ∷ []) self.new }
    {
        self.out[self.to] = word;
        self.to += 1;
    }

    fn put_words(&mut self, words: &[u32])
        requires { HasRoom self.old words.now }
        ensures { Writes self.old words.now self.new }
    {
        let next = self.to + words.len();
        copy(words, &mut self.out[self.to..next]);
        self.to = next;
    }
}

// Records, with the list at a place of the pack.
impl Writer<'_> {
    ghost use Rattle.definitions.specs.Table.{value_of, word_of};
    ghost use Rattle.resolve.specs.Pieces.{list_words, put_for, piece_out, Stampable, RecordPut};
    ghost use Rattle.resolve.specs.Writing.{HasRoom, Writes};
    ghost use Rattle.std.specs.Prelude.{map};

    // The names that the words of a list hold.
    fn put_names(&mut self, names: &[u32])
        requires { HasRoom self.old names.now }
        ensures { Writes self.old (map (λ w. word_of 10 (value_of w)) names.now) self.new }
    {
        for &name in names {
            self.put_word(Pack::SLOT_KIND * Pack::VALUES + name % Pack::VALUES);
        }
    }

    // A list of them, of a kind.
    fn put_list(&mut self, names: &[u32], kind: u32)
        requires { (kind ≤ 21) × (length names.now < 16777216) × HasRoom self.old (list_words kind (map value_of names.now)) }
        ensures { Writes self.old (list_words kind (map value_of names.now)) self.new }
    {
        self.put_word(kind * Pack::VALUES + names.len() as u32);
        self.put_names(names);
    }

    // A relation's record up to the count of its list 21, which stands at a place, with a list stamped on it.
    fn put_lists(&mut self, names: &[u32], words: &[u32], place: usize)
        requires { (length names.now < 16777216) × (4 ≤ place) × (place ≤ length words.now) × HasRoom self.old (put_for (map value_of names.now) words.now place) }
        ensures { Writes self.old (put_for (map value_of names.now) words.now place) self.new }
    {
        let mut from = 0;
        let record = RecordPlace { at: 0 };
        if record.kind_count(words) == 0 {
            self.put_words(&words[..3]);
            self.put_list(names, Pack::SLOT_KINDS);
            from = 4;
        }
        self.put_words(&words[from..place]);
        self.put_list(names, Pack::SLOT_ENTITIES);
    }

    // A record, with the list stamped on it; at place 0, as the table of lists has it, there is none.
    pub fn put_record(&mut self, pack: &[u32], list: u32, words: &[u32])
        requires { Stampable list words.now × HasRoom self.old (piece_out pack.now list words.now) }
        ensures written { Writes self.old (piece_out pack.now list words.now) self.new }
        ensures carried { RecordPut self.old.out.now self.old.to (piece_out pack.now list words.now) self.new.out.now self.new.to }
    {
        if list == 0 {
            self.put_words(words);
            return;
        }
        let record = RecordPlace { at: 0 };
        let place = record.slots_place(words) + 4;
        self.put_lists(list_at(pack, list), words, place);
        self.put_words(&words[place + 1..]);
    }
}
