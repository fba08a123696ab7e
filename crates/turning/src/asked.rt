// What stamping asks for, from the notes: which relations atoms and Exists name, and which predicates hold judgments of roles.
ghost use Rattle.std.specs.Prelude.{◌≡◌, set, true};
ghost use Rattle.turning.specs.Asked.{mark_if, MarkAsked, NoteMarked, MarksAsked, NotesMarked};

use crate::note::Note;
use pack::kinds::Pack;

// Marks a name in a table that says of each name whether it is asked for.
fn mark(table: &mut [bool], name: u32)
    ensures { table.new ≡ set table.old name true }
{
    // No `get_mut`: with it the proof that the other entries stay was not found.
    let i = name as usize;
    if i < table.len() {
        table[i] = true;
    }
}

// The relation in whose predicate a judgment of roles stands, if it stands in one.
fn mark_own(table: &mut [bool], current: Option<u32>)
    ensures { table.new ≡ mark_if current table.old }
{
    if let Some(name) = current {
        mark(table, name);
    }
}

// One note: an atom or Exists marks the relation that it names, and a judgment of roles the relation in whose predicate it
// stands. The answer is the relation in whose predicate the notes after it stand.
fn ask_note(pack: &[u32], code: u32, current: Option<u32>, table: &mut [bool]) -> Option<u32>
    requires { MarkAsked pack.now code }
    ensures { NoteMarked pack.now code current table.old result table.new }
{
    let note = Note::read(code);
    let word = pack[note.place];
    let value = word % Pack::VALUES;
    let kind = word / Pack::VALUES;
    if note.inside == 0 {
        if kind == Pack::RELATION {
            return Some(value);
        }
        return None;
    }
    match kind {
        Pack::RELATION_ATOM | Pack::EXISTS => {
            mark(table, value);
            mark_own(table, current);
        }
        Pack::SAME_ENTITY => mark_own(table, current),
        _ => {}
    }
    current
}

// All notes, so many of them, which stand behind their count: as everywhere, notes are told by their number, and that is their index.
pub fn ask_notes(pack: &[u32], notes: &[u32], all: usize, table: &mut [bool])
    requires { MarksAsked pack.now notes.now all }
    ensures { NotesMarked pack.now notes.now all table.old table.new }
{
    let mut current = None;
    for code in &notes[1..all + 1] {
        current = ask_note(pack, *code, current, table);
    }
}
