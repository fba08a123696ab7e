// Derivations: lists of names, paths, and what else a derivation says.
#![tactic(auto, unfolding(definitions::specs::Table::entry_of, definitions::specs::Table::table))]

ghost use Rattle.std.specs.Prelude.{◌≡◌, ◌≤◌};
ghost use Rattle.definitions.specs.declared.table.Values.TheVariants.{AtMost};
ghost use Rattle.pack.specs.Packed.{Ruled};
ghost use Rattle.definitions.specs.Pack.{name_list, hop, path, chain, member, derivation, optional_derivation};
ghost use Rattle.pack.specs.Readers.{skip_over, step_of};
ghost use Rattle.definitions.specs.Form.{count, list, list_or_none};
ghost use Rattle.std.proofs.Math.Option.{some};
ghost use Rattle.records.specs.Directory.{Noted, lead_in, chain_lead, plain_by, derived_note, member_note, note_in};
ghost use Rattle.records.specs.Notes.{note_member, note_derivation, note_optional};

use crate::count::repeats;
use crate::directory::Directory;
use definitions::table::Values;
use pack::cursor::{Cursor, Step};
use pack::kinds::Pack;
use reading::tree::{Context, judgment, open};
use reading::words::Words;

// A count of this kind, and as many names: how many.
pub fn name_list(from: Cursor, s: &[u32], n: u32, kind: u32) -> Step
    requires { Ruled kind (AtMost 8) }
    ensures { result ≡ step_of (count list) (name_list n kind) s.now from.at }
{
    let (count, first) = from.field(s, n, kind, Values::AtMost(Pack::MOST_SLOTS))?;
    let mut c = first;
    for _ in 0..count {
        let (_, next) = c.field(s, n, Pack::SLOT_KIND, Values::Name)?;
        c = next;
    }
    Ok((count, c))
}

// A step of a path.
fn hop(from: Cursor, s: &[u32], n: u32) -> Step
    ensures { result ≡ skip_over (hop n) s.now from.at }
{
    let (_, c1) = from.skip(s, n, Pack::STEP_RELATION, Values::Name)?;
    let (_, c2) = c1.skip(s, n, Pack::STEP_CURRENT, Values::Any)?;
    c2.skip(s, n, Pack::STEP_RELATED, Values::Any)
}

// A path: its count.
fn path(from: Cursor, s: &[u32], n: u32) -> Step
    ensures { result ≡ step_of (count list_or_none) (path n) s.now from.at }
{
    let (count, first) = from.field(s, n, Pack::PATH, Values::AtMostOrNone(Pack::MOST_STEPS))?;
    let mut c = first;
    for _ in 0..repeats(count) {
        let (_, next) = hop(c, s, n)?;
        c = next;
    }
    Ok((count, c))
}

// The name that a source leads on to and 1, if the path is none; else 0. A number, as it is a part of the word noted of a relation.
fn lead(source: u32, steps: u32) -> u32
    requires { source ≤ 16777215 }
    ensures { result ≡ lead_in source steps }
{
    if steps != Pack::NONE {
        return 0;
    }
    if source == Pack::NONE {
        return 0;
    }
    source + 1
}

// The source, the path and the slots: where it leads.
fn chain(from: Cursor, s: &[u32], n: u32) -> Step
    ensures { result ≡ step_of chain_lead (chain n) s.now from.at }
{
    let (source, c1) = from.field(s, n, Pack::SOURCE, Values::NameOrNone)?;
    let (steps, c2) = path(c1, s, n)?;
    let (_, c3) = c2.skip(s, n, Pack::CURRENT_SLOT, Values::Any)?;
    let (_, c4) = c3.skip(s, n, Pack::RELATED_SLOT, Values::Any)?;
    Ok((lead(source, steps), c4))
}

// What is known of a derivation before its 19: how many kinds its relation has, how far behind the relation's place its slots
// stand, and where it leads.
#[derive(Clone, Copy)]
struct Front {
    kinds: u32,
    slots: u32,
    lead: u32,
}

// What is noted of a relation with so many kinds and without a derivation: a number, since the directory holds a word of it.
fn plain(kinds: u32) -> u32
    ensures { result ≡ plain_by kinds }
{
    if kinds == 0 {
        return 0;
    }
    Directory::LIST_9
}

// The same with one whose list 21 has so many names.
fn derived(front: Front, many: u32) -> u32
    requires { (front.slots ≤ 8300) × (front.lead ≤ 4096) }
    ensures { result ≡ derived_note front.kinds front.slots many front.lead }
{
    let slots = front.slots;
    if many != 0 {
        return slots + Directory::LIST_21 + Directory::OFFSETS * slots;
    }
    if front.kinds != 0 {
        return Directory::LIST_9 + Directory::OFFSETS * slots;
    }
    if front.lead == 0 {
        return Directory::OFFSETS * slots;
    }
    Directory::OFFSETS * (Directory::OFFSETS + front.lead - 1)
}

// The entity, the member relation, the list and the predicate: what is noted of the relation.
fn member(from: Cursor, part: Words, front: Front, context: Context, notes: &mut [u32]) -> Step
    requires { (front.slots ≤ 8300) × (front.lead ≤ 4096) }
    ensures { Noted (member_note front.kinds front.slots front.lead) (member part.entry.heads.now.names) (note_member context.number from.at) part.entry.words.now from.at notes.old result notes.new }
{
    let n = part.heads.names;
    let (_, c1) = from.skip(part.words, n, Pack::ENTITY, Values::NameOrNone)?;
    let (_, c2) = c1.skip(part.words, n, Pack::MEMBER, Values::NameOrNone)?;
    let (many, c3) = name_list(c2, part.words, n, Pack::SLOT_ENTITIES)?;
    let noted = derived(front, many);
    let (_, c4) = judgment(part, c3, context, notes)?;
    Ok((noted, c4))
}

// A derivation of the relation that starts at a place and has so many kinds: what is noted of it. It stands among the notes too. Where it
// starts and how many kinds it has are two numbers, of which the reader above has the first alone.
fn derivation(from: Cursor, part: Words, kinds: u32, start: usize, notes: &mut [u32]) -> Step
    requires { (part.heads.now.names ≤ 4096) × (kinds ≤ 8) × (start ≤ from.at) }
    ensures { Noted (λ d. note_in kinds (some d)) (derivation part.entry.heads.now.names) (note_derivation start from.at) part.entry.words.now from.at notes.old result notes.new }
{
    let first = from.at;
    let (lead, c1) = chain(from, part.words, part.heads.names)?;
    let context = open(notes, start);
    // before a derivation stand 6 to 9, the kinds and 11; the slots are the last two words of the chain
    let slots = 3 + kinds + (c1.at - first) as u32;
    member(c1, part, Front { kinds, slots, lead }, context, notes)
}

// A flag, and a derivation where it is 1: what is noted of the relation.
pub fn optional_derivation(
    from: Cursor,
    part: Words,
    kinds: u32,
    start: usize,
    notes: &mut [u32],
) -> Step
    requires { (part.heads.now.names ≤ 4096) × (kinds ≤ 8) × (start ≤ from.at) }
    ensures { Noted (note_in kinds) (optional_derivation part.entry.heads.now.names) (note_optional start from.at) part.entry.words.now from.at notes.old result notes.new }
{
    let (flag, c) = from.field(
        part.words,
        part.heads.names,
        Pack::DERIVATION,
        Values::AtMost(1),
    )?;
    if flag == 0 {
        return Ok((plain(kinds), c));
    }
    derivation(c, part, kinds, start, notes)
}
