// All notes, turned one after the other.
ghost use Rattle.std.specs.Prelude.{◌≡◌, [], ◌∷◌, ◌+◌, ◌<◌, ◌≤◌, length, get_or};
ghost use Rattle.std.proofs.lemmas.List.Edits.{sets};
ghost use Rattle.definitions.specs.Table.{word_of};
ghost use Rattle.turning.specs.Turns.{note_of};
ghost use Rattle.turning.specs.TurnPromises.{NoteAsked, NoteTurned, TurnsAsked, NotesTurned, PackAsked, PackTurned};

use crate::known::Known;
use crate::note::Note;
use crate::root::Root;
use crate::step::{Node, Out};
use definitions::answer::Refusal;
use pack::kinds::Pack;
use records::directory::Layout;

// The slots of a node.
fn set_slots(work: &mut [u32], at: usize, current: u32, related: u32)
    requires { (length work.old ≤ 8192) × (at + 2 < length work.old) × (current < 16777216) × (related < 16777216) }
    ensures { work.new ≡ sets work.old (at + 1) (word_of 80 current ∷ word_of 81 related ∷ []) }
{
    work[at + 1] = Pack::CURRENT * Pack::VALUES + current;
    work[at + 2] = Pack::RELATED * Pack::VALUES + related;
}

// The slices that turning writes are parameters, not fields: a struct that held them would have to promise at each call that it still holds
// the same ones, beside what it leaves in them.
impl Known<'_> {
    // The i-th note, of a node: its own number gives way to the entity of what stands inside it.
    fn turn_node(
        &self,
        root: Root,
        note: Note,
        work: &mut [u32],
        notes: &mut [u32],
        i: usize,
    ) -> Result<Root, Refusal>
        requires { NoteAsked self.now.tables.pack.now work.old notes.old i × (note ≡ note_of (get_or notes.old i 0)) × (note.inside ≡ 0 → ⊥) }
        ensures { NoteTurned self.now i root work.old notes.old result work.new notes.new }
    {
        let node = Node {
            note,
            entity: notes[note.inside],
            root,
        };
        match self.step(node)? {
            Out::Opens(current, related, entity) => {
                set_slots(work, note.place, current, related);
                notes[i] = entity;
            }
            Out::Sets(current, related) => set_slots(work, note.place, current, related),
            Out::Passes => {}
        }
        Ok(root)
    }

    // Of any sort: from the note of a rule or relation on, turning is in it.
    fn turn_note(
        &self,
        root: Root,
        work: &mut [u32],
        notes: &mut [u32],
        i: usize,
    ) -> Result<Root, Refusal>
        requires { NoteAsked self.now.tables.pack.now work.old notes.old i }
        ensures { NoteTurned self.now i root work.old notes.old result work.new notes.new }
    {
        let note = Note::read(notes[i]);
        if note.inside != 0 {
            return self.turn_node(root, note, work, notes, i);
        }
        let root = Root::opened(self, note.place);
        notes[i] = root.entity;
        Ok(root)
    }

    // Notes in a row; where something stands inside one, its entity takes the place of the note.
    pub fn turns(
        &self,
        work: &mut [u32],
        notes: &mut [u32],
        from: usize,
        to: usize,
    ) -> Result<(), Refusal>
        requires { TurnsAsked self.now.tables.pack.now work.old notes.old from to }
        ensures { NotesTurned self.now from to work.old notes.old result work.new notes.new }
    {
        // A copy, so that what is known is not read anew after each word that is written.
        let known = *self;
        let mut root = Root::default();
        for i in from..to {
            root = known.turn_note(root, work, notes, i)?;
        }
        Ok(())
    }

    // All notes of a pack: those of its rules, then those of its relations.
    pub fn turn_pack(
        &self,
        layout: Layout,
        work: &mut [u32],
        notes: &mut [u32],
    ) -> Result<(), Refusal>
        requires { PackAsked self.now.tables.pack.now self.now.tables.acts.now self.now.tables.taken.now work.old notes.old self.now.blocks.at self.now.blocks.count layout.noted layout.all }
        ensures { PackTurned self.now.tables.pack.now result work.new }
    {
        let rules = layout.noted as usize + 1;
        self.turns(work, notes, rules, layout.all as usize + 1)?;
        self.turns(work, notes, 1, rules)
    }
}
