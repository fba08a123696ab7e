// All the records of a pack, one sort after the other.
ghost use Rattle.std.specs.Prelude.{◌≤◌};
ghost use Rattle.records.specs.Directory.{Clear};
ghost use Rattle.records.specs.Notes.{LaidOut};

use crate::block::blocks;
use crate::defaulted::defaulted;
use crate::directory::{Laid, Layout};
use crate::relation::relations;
use crate::rule::rules;
use pack::cursor::Cursor;
use reading::tree::count;
use reading::words::Words;

// All the records: where they stand, with the relations in the directory, and the notes.
pub fn records(from: Cursor, part: Words, dir: &mut [u32], notes: &mut [u32]) -> Laid
    requires { (part.heads.now.names ≤ 4096) × Clear part.heads.now.names dir.old }
    ensures { LaidOut part.entry.heads.now.names part.entry.words.now from.at dir.old notes.old result dir.new notes.new }
{
    let n = part.heads.names;
    let (_, c1) = defaulted(from, part.words, n)?;
    let (relations, c2) = relations(c1, part, dir, notes)?;
    let noted = count(notes);
    let (_, c3) = rules(c2, part, notes)?;
    let (_, c4) = blocks(c3, part.words, n)?;
    let all = count(notes);
    Ok(Layout {
        names: n,
        relations,
        rules: c2.at,
        blocks: c3.at,
        end: c4.at,
        noted,
        all,
    })
}
