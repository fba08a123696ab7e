// Resolve: a pack with its directions settled, written out whole. What is asked for, the notes and the copy of the words are slices that are
// lent and filled one after the other: a struct that held them would have to promise at each call that it still holds the same ones.
ghost use Rattle.definitions.specs.Answers.{Answered};
ghost use Rattle.definitions.specs.Operations.{resolve_answer, resolve_buffer};
ghost use Rattle.std.specs.Prelude.{◌≡◌, ◌+◌, ◌≤◌, length, get_or};
ghost use Rattle.chains.specs.DirectoryWord.{Reaches, starts_in};
ghost use Rattle.checking.specs.CheckPromises.{names_said};
ghost use Rattle.resolve.specs.Finish.{PlacedAsked, PiecesAsked, ResolveAsked, TablesFor, RoomFor, CopyRoom, Into};

use crate::checked::{Checked, Figures, Places};
use crate::finish::finish;
use crate::order::order;
use crate::write::copy;
use chains::entry::start;
use checking::check::{check_notes, names_said};
use checking::rewrite::written;
use definitions::answer::{Answer, Number, Refusal};
use directions::tables::Tables;
use filtered::taking::read_tables;
use pack::kinds::Pack;
use pack::refusal::refused;
use records::directory::Directory;
use turning::asked::ask_notes;
use turning::known::Known;

// The place of each piece of a pack is known, no more than MOST of them, and no defaulted name has equal kinds: all trees are
// resolved in a copy of the words, and then the result takes the place of the notes, if there is room for it.
fn resolve_placed<const MOST: usize>(
    checked: &Checked,
    asked: &[bool],
    places: &[u32],
    out: &mut [u32],
    work: &mut [u32],
) -> Answer
    requires { PlacedAsked checked.now.tables.pack.now checked.now.tables.acts.now checked.now.tables.taken.now asked.now places.now out.old checked.now.figures work.old × (length places.now ≤ MOST) × (MOST ≤ 8192) }
    ensures { Into checked.now.tables.pack.now checked.now.figures.room result out.new }
{
    copy(checked.tables.pack, work);
    let figures = checked.figures;
    let known = Known {
        tables: checked.tables,
        blocks: figures.blocks,
    };
    known.turn_pack(figures.layout, work, out)?;
    let room = figures.room;
    finish::<MOST>(checked, asked, places, work, &mut out[0..room])
}

// With room for the places of so many pieces: clearing a large table would take longer than the work on a small pack.
fn resolve_pieces<const MOST: usize>(
    checked: &Checked,
    asked: &[bool],
    out: &mut [u32],
    work: &mut [u32],
) -> Answer
    requires { PiecesAsked checked.now.tables.pack.now checked.now.dir.now checked.now.tables.acts.now checked.now.tables.taken.now asked.now out.old checked.now.figures work.old MOST × (MOST ≤ 8192) }
    ensures { Into checked.now.tables.pack.now checked.now.figures.room result out.new }
{
    let mut table = [0u32; MOST];
    let count = checked.pieces();
    let table = &mut table[..];
    let places = &mut table[0..count];
    order(checked, out, places);
    resolve_placed::<MOST>(checked, asked, places, out, work)
}

// A checked pack with its notes, and a slice for its words. Defaulted names with equal kinds are refused. What stamping asks of
// the notes, and where rules stand, is read before they are turned.
fn resolve_in(checked: &Checked, asked: &mut [bool], out: &mut [u32], work: &mut [u32]) -> Answer
    requires { ResolveAsked checked.now.tables.pack.now checked.now.dir.now checked.now.tables.acts.now checked.now.tables.taken.now asked.old out.old checked.now.figures work.old }
    ensures { Into checked.now.tables.pack.now checked.now.figures.room result out.new }
{
    if let Some(name) = checked.tables.first_equal() {
        return Err(equal_kinds(checked.dir, name));
    }
    ask_notes(
        checked.tables.pack,
        out,
        checked.figures.layout.all as usize,
        asked,
    );
    if checked.pieces() <= Places::FEW {
        return resolve_pieces::<{ Places::FEW }>(checked, asked, out, work);
    }
    resolve_pieces::<{ Places::MOST }>(checked, asked, out, work)
}

// The refusal of a name whose relation has equal kinds in both slots.
fn equal_kinds(dir: &[u32], name: u32) -> Refusal
    requires { Reaches dir.now (name + 1) }
    ensures { result ≡ record { number = 9; place = get_or (starts_in dir.now) name 0; name = name; other = 0 } }
{
    Refusal {
        name,
        ..refused(Number::EqualKinds, start(dir, name as usize))
    }
}

// With a directory and tables for the names that the words say, and a slice for a copy of the words; lent one by one, since they
// are filled one after the other and read from then on.
fn resolve_by(
    pack: &[u32],
    dir: &mut [u32],
    acts: &mut [u32],
    taken: &mut [u32],
    asked: &mut [bool],
    out: &mut [u32],
    room: usize,
    words: &mut [u32],
) -> Answer
    requires { RoomFor pack.now out.old room × TablesFor pack.now dir.old acts.old taken.old asked.old × CopyRoom pack.now (length words.old) }
    ensures { Into pack.now room result out.new }
{
    let layout = check_notes(pack, dir, out)?;
    let steps = read_tables(pack, layout, dir, acts, taken);
    let checked = Checked {
        tables: Tables { pack, acts, taken },
        dir,
        figures: Figures::of(pack, layout, steps, room),
    };
    let count = pack.len();
    resolve_in(&checked, asked, out, &mut words[0..count])
}

// With tables for so many names, and a directory for them: clearing large ones would take longer than the work.
fn resolve_named<const NAMES: usize, const WORDS: usize>(
    pack: &[u32],
    out: &mut [u32],
    room: usize,
    words: &mut [u32],
) -> Answer
    requires { RoomFor pack.now out.old room × CopyRoom pack.now (length words.old) × (names_said pack.now ≤ NAMES) × (NAMES ≤ 4096) × (WORDS ≡ 512 + NAMES) }
    ensures { Into pack.now room result out.new }
{
    let mut dir = [0u32; WORDS];
    let mut acts = [0u32; NAMES];
    let mut taken = [0u32; NAMES];
    let mut asked = [false; NAMES];
    resolve_by(
        pack, &mut dir, &mut acts, &mut taken, &mut asked, out, room, words,
    )
}

// With a copy of the words in so many.
fn resolve_copied<const MOST: usize>(pack: &[u32], out: &mut [u32], room: usize) -> Answer
    requires { RoomFor pack.now out.old room × CopyRoom pack.now MOST × (MOST ≤ 8192) }
    ensures { Into pack.now room result out.new }
{
    let mut words = [0u32; MOST];
    let names = names_said(pack);
    if names <= Directory::FEW {
        return resolve_named::<{ Directory::FEW }, { Directory::FEW_WORDS }>(
            pack, out, room, &mut words,
        );
    }
    if names <= Directory::SOME {
        return resolve_named::<{ Directory::SOME }, { Directory::SOME_WORDS }>(
            pack, out, room, &mut words,
        );
    }
    resolve_named::<{ Directory::ALL }, { Directory::WORDS }>(pack, out, room, &mut words)
}

// Resolve for an output of so many words, into a slice that holds notes before the result, and anything after a refusal. A
// small pack has a small copy, since clearing a large one would take longer than the work. Sizes are arguments that must be constants,
// here, for its names and for its pieces; so each is written out.
pub fn resolve_into(pack: &[u32], out: &mut [u32], room: usize) -> Answer
    requires { RoomFor pack.now out.old room }
    ensures { Into pack.now room result out.new }
{
    if pack.len() <= Pack::FEW_WORDS {
        return resolve_copied::<{ Pack::FEW_WORDS }>(pack, out, room);
    }
    resolve_copied::<{ Pack::MOST_WORDS }>(pack, out, room)
}

// The whole pack in record order, with slots and lists as resolving leaves them; the answer is its number of words and
// how many declarations were read for its kinds.
pub fn resolve(pack: &[u32], out: &mut [u32]) -> Answer
    ensures { Answered resolve_answer resolve_buffer pack.now out.old result out.new }
{
    let mut made = [0u32; Pack::MOST_WORDS + 1];
    let room = out.len().min(Pack::MOST_WORDS);
    let a = resolve_into(pack, &mut made, room);
    let count = written(a);
    copy(&made[0..count], &mut out[0..count]);
    a
}
