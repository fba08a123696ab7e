// Relations, each with a name that none before it has.
#![tactic(auto, unfolding(definitions::specs::Table::entry_of, definitions::specs::Table::table))]

ghost use Rattle.std.specs.Prelude.{◌≡◌, ◌+◌, ◌<◌, ◌≤◌, length};
ghost use Rattle.definitions.specs.Pack.{relation_tail, new_name, relation, relations};
ghost use Rattle.definitions.specs.Form.{count, list};
ghost use Rattle.pack.specs.Readers.{step_of, itself, name_of};
ghost use Rattle.records.specs.Directory.{Noted, tail_note, entered, Clear};
ghost use Rattle.records.specs.Notes.{note_tail, note_both, note_all};

use crate::derivation::{name_list, optional_derivation};
use crate::directory::Directory;
use definitions::answer::{Number, Refusal};
use definitions::table::Values;
use pack::cursor::{Cursor, Step};
use pack::kinds::Pack;
use pack::refusal::refused;
use reading::words::Words;

// What follows the name of a relation that starts at a place: what is noted of the relation.
fn relation_tail(from: Cursor, part: Words, start: usize, notes: &mut [u32]) -> Step
    requires { (part.heads.now.names ≤ 4096) × (start ≤ from.at) }
    ensures { Noted tail_note (relation_tail part.entry.heads.now.names) (note_tail start from.at) part.entry.words.now from.at notes.old result notes.new }
{
    let n = part.heads.names;
    let (_, c1) = from.skip(part.words, n, Pack::RELATION_ORIGIN, Values::NameOrNone)?;
    let (_, c2) = c1.skip(part.words, n, Pack::ARITY, Values::Any)?;
    let (kinds, c3) = name_list(c2, part.words, n, Pack::SLOT_KINDS)?;
    optional_derivation(c3, part, kinds, start, notes)
}

// A name that no relation before it has.
fn new_name(from: Cursor, s: &[u32], n: u32, dir: &[u32]) -> Step
    requires { 512 + n ≤ length dir.now }
    ensures { result ≡ step_of itself (new_name n (entered dir.now)) s.now from.at }
{
    let (v, c) = from.field(s, n, Pack::RELATION, Values::Name)?;
    if 0 < dir[Directory::NAMES + v as usize] {
        return Err(Refusal {
            name: v,
            ..refused(Number::NameUsed, from.at)
        });
    }
    Ok((v, c))
}

// A relation: its name. It is noted as the one of a number.
fn relation(from: Cursor, part: Words, dir: &mut [u32], i: usize, notes: &mut [u32]) -> Step
    requires { (part.heads.now.names ≤ 4096) × (i < 512) × (512 + part.heads.now.names ≤ length dir.old) }
    ensures { Noted name_of (relation part.entry.heads.now.names (entered dir.old)) (note_both i from.at) part.entry.words.now from.at (dir.old, notes.old) result (dir.new, notes.new) }
{
    let start = from.at;
    let (v, c1) = new_name(from, part.words, part.heads.names, dir)?;
    let (note, c2) = relation_tail(c1, part, start, notes)?;
    dir[i] = v;
    dir[Directory::NAMES + v as usize] = start as u32 + Directory::PLACES * note;
    Ok((v, c2))
}

// The relations: how many. None is noted at first.
pub fn relations(from: Cursor, part: Words, dir: &mut [u32], notes: &mut [u32]) -> Step
    requires { (part.heads.now.names ≤ 4096) × Clear part.heads.now.names dir.old }
    ensures { Noted (count list) (relations part.entry.heads.now.names) (note_all part.entry.heads.now.names from.at) part.entry.words.now from.at (dir.old, notes.old) result (dir.new, notes.new) }
{
    let (count, first) = from.field(
        part.words,
        part.heads.names,
        Pack::RELATION_COUNT,
        Values::AtMost(Pack::MOST_RELATIONS),
    )?;
    let mut c = first;
    for i in 0..count {
        let (_, next) = relation(c, part, dir, i as usize, notes)?;
        c = next;
    }
    Ok((count, c))
}
