// The filtered tables: what direct, innermost, alias and unresolved say of each name.
ghost use Rattle.std.specs.Prelude.{◌≡◌, ◌+◌, ◌<◌, ◌≤◌, length};
ghost use Rattle.definitions.specs.Answers.{table_from, Answered};
ghost use Rattle.chains.specs.DirectoryWord.{Reaches, declared_by};
ghost use Rattle.chains.specs.PackDirectory.{ClearTable, DirectoryRoom, IsDirectory, Sized};
ghost use Rattle.checking.specs.CheckPromises.{names_said};
ghost use Rattle.definitions.specs.Filtered.{or_none};
ghost use Rattle.definitions.specs.Operations.{filter_answer, filter_buffer};
ghost use Rattle.filtered.specs.Said.{inner_entry, inner_of, said, said_in, InnerAsked, InnerWords, InnerMarked, InnerFor, FilterLeft, KnownName};
ghost use Rattle.filtered.specs.Taking.{option_in, number_of_taken, Packable};

use crate::inner::settle_all;
use crate::taking::{Taken, take_kinds};
use chains::settle::Mark;
use checking::check::{check_directory, names_said};
use definitions::answer::{Answer, Given, Number};
use definitions::operation::Filter;
use pack::kinds::Pack;
use pack::refusal::refused;
use records::directory::{Directory, Layout};

// Its innermost kind, by the mark of its walk; a name that has no direct kind gets none.
fn inner_of(taken: Taken, mark: u32) -> Option<u32>
    requires { Packable taken }
    ensures { or_none (option_in result) ≡ inner_of (number_of_taken taken) mark }
{
    taken.direct()?;
    Mark::from(mark).answer().checked_sub(1)
}

// What a table says of a name.
fn say(filter: Filter, x: u32, mark: u32, e: u32) -> u32
    requires { e < 4096 }
    ensures { result ≡ said filter x mark e }
{
    let taken = Taken::from(x);
    match filter {
        Filter::Direct => taken.direct().unwrap_or(Pack::NONE),
        Filter::Innermost => inner_of(taken, mark).unwrap_or(Pack::NONE),
        Filter::Alias => u32::from(taken.is_alias(e)),
        Filter::Unresolved => u32::from(taken.is_unresolved()),
    }
}

// What a table says of each name, in the place of the mark of its walk. What is known of a name is looked up by index: of a slice that
// is written through a zip a proof knows the length alone.
#[inline]
fn say_all(taken: &[u32], filter: Filter, out: &mut [u32])
    requires { (length out.old ≤ length taken.now) × (length out.old ≤ 4096) }
    ensures { out.new ≡ table_from (said_in filter taken.now out.old) 0 (length out.old) }
{
    for (j, word) in out.iter_mut().enumerate() {
        *word = say(filter, taken[j], *word, j as u32);
    }
}

// The same, where the filter is chosen once: the loop of each knows its own, and does not ask at each name.
fn say_table(taken: &[u32], filter: Filter, out: &mut [u32])
    requires { (length out.old ≤ length taken.now) × (length out.old ≤ 4096) }
    ensures { out.new ≡ table_from (said_in filter taken.now out.old) 0 (length out.old) }
{
    match filter {
        Filter::Direct => say_all(taken, Filter::Direct, out),
        Filter::Innermost => say_all(taken, Filter::Innermost, out),
        Filter::Alias => say_all(taken, Filter::Alias, out),
        Filter::Unresolved => say_all(taken, Filter::Unresolved, out),
    }
}

// The direct kind of a name as a word of the directory: it leads on, or a list settles it 1 behind the name itself.
fn inner_word(x: u32, e: u32) -> u32
    requires { KnownName x e }
    ensures { declared_by result ≡ inner_entry x e }
{
    match Taken::from(x).direct() {
        Some(d) if d != e => Directory::PLACES * Directory::OFFSETS * (Directory::OFFSETS + d),
        _ => e + Directory::PLACES,
    }
}

// The direct kinds of names as words of a directory, one for each; by index, as in `say_all`.
fn inner_words(taken: &[u32], words: &mut [u32])
    requires { InnerAsked taken.now (length words.old) }
    ensures { InnerWords taken.now (length words.old) words.new }
{
    for (j, word) in words.iter_mut().enumerate() {
        *word = inner_word(taken[j], j as u32);
    }
}

// The walks along the direct kinds of all names, by a directory that is free: it and the marks have one word for each.
fn walk_inner(taken: &[u32], dir: &mut [u32], marks: &mut [u32])
    requires { InnerAsked taken.now (length marks.old) × (length dir.old ≡ 512 + length marks.old) }
    ensures { InnerMarked taken.now (length marks.old) marks.new }
{
    inner_words(taken, &mut dir[Directory::NAMES..]);
    marks.fill(Mark::UNSEEN);
    settle_all(dir, marks);
}

// The walks, where a filter needs them.
fn mark_inner(filter: Filter, taken: &[u32], dir: &mut [u32], marks: &mut [u32])
    requires { InnerAsked taken.now (length marks.old) × (length dir.old ≡ 512 + length marks.old) }
    ensures { InnerFor filter taken.now (length marks.old) marks.new }
{
    if let Filter::Innermost = filter {
        walk_inner(taken, dir, marks);
    }
}

// A table of a checked pack into a slice with one word for each name. When the kinds are taken the directory is free for the
// walks along them; so what it says is asked for here, and no promise of a struct round it.
fn fill(
    pack: &[u32],
    l: Layout,
    dir: &mut [u32],
    filter: Filter,
    marks: &mut [u32],
    taken: &mut [u32],
    out: &mut [u32],
)
    requires { IsDirectory pack.now l dir.old × ClearTable l.names marks.old × Reaches dir.old (length marks.old) × ClearTable l.names taken.old × (length out.old ≡ l.names) }
    ensures { FilterLeft filter pack.now out.new }
{
    take_kinds(pack, l, dir, marks, taken);
    let words = Directory::NAMES + out.len();
    mark_inner(filter, taken, &mut dir[0..words], out);
    say_table(taken, filter, out);
}

// A table, by a directory and tables that are lent: so what they say is asked for here, and by no struct.
fn filtered_in(
    pack: &[u32],
    filter: Filter,
    dir: &mut [u32],
    marks: &mut [u32],
    taken: &mut [u32],
    out: &mut [u32],
) -> Answer
    requires { DirectoryRoom pack.now dir.old marks.old × ClearTable (names_said pack.now) taken.old }
    ensures { Answered (filter_answer filter) (filter_buffer filter) pack.now out.old result out.new }
{
    let l = check_directory(pack, dir)?;
    let names = l.names;
    let count = names as usize;
    if out.len() < count {
        return Err(refused(Number::NoRoom, 0));
    }
    fill(pack, l, dir, filter, marks, taken, &mut out[0..count]);
    Ok(Given {
        value: names,
        steps: 0,
    })
}

// The same with a directory and tables of its own.
fn filtered_sized<const WORDS: usize, const NAMES: usize>(
    pack: &[u32],
    filter: Filter,
    out: &mut [u32],
) -> Answer
    requires { Sized pack.now WORDS NAMES }
    ensures { Answered (filter_answer filter) (filter_buffer filter) pack.now out.old result out.new }
{
    let mut dir = [0u32; WORDS];
    let mut marks = [0u32; NAMES];
    let mut taken = [0u32; NAMES];
    filtered_in(pack, filter, &mut dir, &mut marks, &mut taken, out)
}

// A table, one word for each name of the pack. A size is an argument that must be a constant, so each is written out.
pub fn filtered(pack: &[u32], filter: Filter, out: &mut [u32]) -> Answer
    ensures { Answered (filter_answer filter) (filter_buffer filter) pack.now out.old result out.new }
{
    let n = names_said(pack);
    if n <= Directory::FEW {
        filtered_sized::<{ Directory::FEW_WORDS }, { Directory::FEW }>(pack, filter, out)
    } else if n <= Directory::SOME {
        filtered_sized::<{ Directory::SOME_WORDS }, { Directory::SOME }>(pack, filter, out)
    } else {
        filtered_sized::<{ Directory::WORDS }, { Directory::ALL }>(pack, filter, out)
    }
}
