// Check: whether a slice of words is a pack.
#![tactic(auto, unfolding(definitions::specs::Table::entry_of, definitions::specs::Table::table))]

ghost use Rattle.std.specs.Prelude.{◌≡◌, ◌+◌, ◌≤◌, length};
ghost use Rattle.records.specs.Directory.{Clear};
ghost use Rattle.checking.specs.CheckPromises.{names_said, LaidWhole, CheckedNotes, DirectoryChecked};
ghost use Rattle.definitions.specs.Checking.{check_answer};

use definitions::answer::{Answer, Given, Number};
use definitions::table::Values;
use pack::heads::{Heads, PackHeads};
use pack::kinds::Pack;
use pack::refusal::refused;
use reading::words::Words;
use records::all::records;
use records::directory::{Directory, Laid};

// All the words of a slice of so many: where they stand.
fn layout(s: &[u32], len: u32, dir: &mut [u32], notes: &mut [u32]) -> Laid
    requires { (length s.now ≤ 8192) × Clear (names_said s.now) dir.old }
    ensures { LaidWhole len s.now dir.old notes.old result dir.new notes.new }
{
    let c = Pack::start();
    let (_, c1) = c.skip(s, len, Pack::TOTAL, Values::Total)?;
    let (n, c2) = c1.field(s, 0, Pack::NAMES, Values::FromOne(Pack::MOST_NAMES))?;
    let heads = Heads::new(n);
    let pack = PackHeads { heads };
    let part = Words {
        words: s,
        heads: &pack.heads,
    };
    records(c2, part, dir, notes)
}

// Where the records of a pack stand, with a directory of its relations, and notes of what resolving looks at, as far as there
// is room for them; or the first refusal.
pub fn check_notes(pack: &[u32], dir: &mut [u32], notes: &mut [u32]) -> Laid
    requires { Clear (names_said pack.now) dir.old }
    ensures { CheckedNotes pack.now dir.old notes.old result dir.new notes.new }
{
    let len = pack.len();
    if len < Pack::LEAST_WORDS {
        return Err(refused(Number::WrongLength, 0));
    }
    if Pack::MOST_WORDS < len {
        return Err(refused(Number::WrongLength, 0));
    }
    let l = layout(pack, len as u32, dir, notes)?;
    let end = l.end;
    if end < len {
        return Err(refused(Number::LeftOver, end));
    }
    Ok(l)
}

// The same without notes.
pub fn check_directory(pack: &[u32], dir: &mut [u32]) -> Laid
    requires { Clear (names_said pack.now) dir.old }
    ensures { DirectoryChecked pack.now dir.old result dir.new }
{
    check_notes(pack, dir, &mut [])
}

// N as the words say it, 0 where that can't be N. It is no Option: 0 is also the number of names to make room for then.
pub fn names_said(pack: &[u32]) -> usize
    ensures { result ≡ names_said pack.now }
{
    if pack.len() < 2 {
        return 0;
    }
    let n = pack[1] % Pack::VALUES;
    if Pack::MOST_NAMES < n {
        return 0;
    }
    n as usize
}

// Check with a directory of so many words.
fn check_sized<const WORDS: usize>(pack: &[u32]) -> Answer
    requires { (512 + names_said pack.now ≤ WORDS) × (WORDS ≤ 4608) }
    ensures { result ≡ check_answer pack.now }
{
    let mut dir = [0u32; WORDS];
    check_directory(pack, &mut dir)?;
    Ok(Given { value: 1, steps: 0 })
}

// Whether the words are a pack, or the first refusal. Few names have a small directory, since clearing a large one would take
// longer than the work; a size is an argument that must be a constant, so each is written out.
pub fn check(pack: &[u32]) -> Answer
    ensures { result ≡ check_answer pack.now }
{
    let n = names_said(pack);
    if n <= Directory::FEW {
        return check_sized::<{ Directory::FEW_WORDS }>(pack);
    }
    if n <= Directory::SOME {
        return check_sized::<{ Directory::SOME_WORDS }>(pack);
    }
    check_sized::<{ Directory::WORDS }>(pack)
}
