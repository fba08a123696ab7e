// The result: relations stamped, and the whole pack written out if there is room for it.
ghost use Rattle.std.specs.Prelude.{◌≤◌, length};
ghost use Rattle.resolve.specs.Finish.{ClearFor, FinishAsked, FinishCame};

use crate::checked::Checked;
use crate::write::write;
use definitions::answer::{Answer, Given, Number};
use pack::kinds::Pack;
use pack::refusal::refused;
use stamping::lists::lists;

// From the words of a pack whose trees are resolved, and the places of its pieces, with a cleared table for the lists that are
// stamped on them. Places and lists are two slices: the places were made before the trees were turned, the lists are made after.
fn finish_in(
    checked: &Checked,
    asked: &[bool],
    places: &[u32],
    work: &[u32],
    found: &mut [u32],
    out: &mut [u32],
) -> Answer
    requires { FinishAsked checked.now.tables.pack.now places.now checked.now.tables.acts.now asked.now work.now checked.now.figures.layout.relations checked.now.figures.steps × ClearFor places.now found.old }
    ensures { FinishCame checked.now.tables.pack.now out.old result out.new }
{
    let pack = checked.tables.pack;
    let after = checked.figures.layout.relations as usize + 1;
    let order = &places[1..after];
    let more = lists(
        pack,
        work,
        checked.tables.acts,
        asked,
        order,
        &mut found[1..after],
    );
    let len = work.len() + more;
    if Pack::MOST_WORDS < len {
        return Err(refused(Number::NoRoom, 0));
    }
    if out.len() < len {
        return Err(refused(Number::NoRoom, 0));
    }
    let all = places.len();
    write(pack, work, places, &found[0..all], &mut out[0..len]);
    Ok(Given {
        value: len as u32,
        steps: checked.figures.steps,
    })
}

// With room for so many lists: a pack of few pieces has a small table. What is asked of the size, a const parameter, has no place but a clause.
pub fn finish<const MOST: usize>(
    checked: &Checked,
    asked: &[bool],
    places: &[u32],
    work: &[u32],
    out: &mut [u32],
) -> Answer
    requires { FinishAsked checked.now.tables.pack.now places.now checked.now.tables.acts.now asked.now work.now checked.now.figures.layout.relations checked.now.figures.steps × (length places.now ≤ MOST) × (MOST ≤ 8192) }
    ensures { FinishCame checked.now.tables.pack.now out.old result out.new }
{
    let mut found = [0u32; MOST];
    finish_in(checked, asked, places, work, &mut found, out)
}
