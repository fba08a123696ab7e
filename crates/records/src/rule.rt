// Rules and their bodies. Each rule is noted, and then the nodes of its trees.
#![tactic(auto, unfolding(definitions::specs::Table::entry_of, definitions::specs::Table::table))]

ghost use Rattle.std.specs.Prelude.{ℕ};
ghost use Rattle.definitions.specs.Form.{count, list};
ghost use Rattle.definitions.specs.Pack.{body, bodies, rule, rules};
ghost use Rattle.records.specs.Directory.{Noted};
ghost use Rattle.records.specs.Notes.{note_body, note_bodies, note_rule, note_rules};

use definitions::table::Values;
use pack::cursor::{Cursor, Step};
use pack::kinds::Pack;
use reading::tree::{Context, judgment, open, scalar};
use reading::words::Words;

// A body: the sort of its tree, and the tree.
fn body(from: Cursor, part: Words, context: Context, notes: &mut [u32]) -> Step
    ensures { Noted (λ b. 0) (body part.entry.heads.now.names) (note_body context.number from.at) part.entry.words.now from.at notes.old result notes.new }
{
    let (sort, c) = from.field(part.words, part.heads.names, Pack::BODY, Values::AtMost(1))?;
    if sort == Pack::SCALAR {
        scalar(part, c, context, notes)
    } else {
        judgment(part, c, context, notes)
    }
}

// The semantics and the versions.
fn bodies(from: Cursor, part: Words, context: Context, notes: &mut [u32]) -> Step
    ensures { Noted (λ b. 0) (bodies part.entry.heads.now.names) (note_bodies part.entry.heads.now.names context.number from.at) part.entry.words.now from.at notes.old result notes.new }
{
    let (count, c0) = from.field(
        part.words,
        part.heads.names,
        Pack::BODIES,
        Values::FromOne(Pack::MOST_BODIES),
    )?;
    let (_, first) = body(c0, part, context, notes)?;
    let mut c = first;
    for _ in 1..count {
        let (_, next) = body(c, part, context, notes)?;
        c = next;
    }
    Ok((0, c))
}

fn rule(from: Cursor, part: Words, notes: &mut [u32]) -> Step
    ensures { (i : ℕ) → Noted (λ b. 0) (rule part.entry.heads.now.names) (note_rule part.entry.heads.now.names i from.at) part.entry.words.now from.at notes.old result notes.new }
{
    let n = part.heads.names;
    let (_, c1) = from.skip(part.words, n, Pack::RULE, Values::Name)?;
    let (_, c2) = c1.skip(part.words, n, Pack::RULE_ORIGIN, Values::NameOrNone)?;
    let (_, c3) = c2.skip(part.words, n, Pack::RULE_ENTITY, Values::Name)?;
    let context = open(notes, from.at);
    bodies(c3, part, context, notes)
}

// The rules: how many.
pub fn rules(from: Cursor, part: Words, notes: &mut [u32]) -> Step
    ensures { Noted (count list) (rules part.entry.heads.now.names) (note_rules part.entry.heads.now.names from.at) part.entry.words.now from.at notes.old result notes.new }
{
    let (count, first) = from.field(
        part.words,
        part.heads.names,
        Pack::RULE_COUNT,
        Values::AtMost(Pack::MOST_RULES),
    )?;
    let mut c = first;
    for _ in 0..count {
        let (_, next) = rule(c, part, notes)?;
        c = next;
    }
    Ok((count, c))
}
