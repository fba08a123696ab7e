// Trees: scalar and judgment walkers, which call each other. With each level the number of levels left falls.
// They answer the place after the tree, or what is wrong with it. On their way they note the nodes that resolving looks at.
// Notes are a slice, and no struct round it: every function of the cycle would have to promise that the struct still holds that slice. Place,
// levels and context are numbers by themselves, since from call to call now the one changes and now the other.
ghost use Rattle.std.specs.Prelude.{◌≡◌, ◌+◌, ◌≤◌, ◌<◌, [], ◌∷◌, true, false, length, get_or, set, replicate};
ghost use Rattle.definitions.specs.declared.table.Follows.TheVariants.{Aggregate, Exists};
ghost use Rattle.definitions.specs.Table.{scalar, judgment, kind_of};
ghost use Rattle.definitions.specs.Tree.{root};
ghost use Rattle.reading.specs.Faults.{walked};
ghost use Rattle.reading.specs.Notes.{context_of, note_code, note};
ghost use Rattle.reading.specs.Noting.{next_note, Based, Context as InPack, losing, push, in_next, note_tree, NotedStep, Sorted, Rows, Shape, OtherScalar, After};

use crate::fault::Fault;
use crate::words::Words;
use pack::cursor::{Cursor, Step};
use pack::kinds::Pack;
use pack::table::children;

// How many notes there are.
pub fn count(notes: &[u32]) -> u32
    ensures { result ≡ get_or notes.now 0 0 }
{
    match notes.first() {
        Some(many) => *many,
        None => 0,
    }
}

// A word of the notes, where there is room for it.
fn put(notes: &mut [u32], i: usize, word: u32)
    ensures { notes.new ≡ set notes.old i word }
{
    if i < notes.len() {
        notes[i] = word;
    }
}

// One note more, and the context of the trees inside it.
#[tactic(auto, unfolding(crate::specs::Noting::push))]
fn note(notes: &mut [u32], code: u32) -> u32
    ensures { (result ≡ in_next notes.old) × (notes.new ≡ push code notes.old) }
{
    let i = count(notes) % Pack::MOST_NOTES + 1;
    put(notes, i as usize, code);
    put(notes, 0, i);
    Pack::INSIDE * i + Pack::LOST
}

// The context of the trees of a rule or relation: a number, since a note is its sum with a place.
#[derive(Clone, Copy)]
pub struct Context {
    pub number: u32,
    pub ghost in_pack: { InPack number },
}

// A rule or relation at a place is noted, inside no other: the context of its trees.
pub fn open(notes: &mut [u32], at: usize) -> Context
    requires { at ≤ 8192 }
    ensures { (result.number ≡ context_of (next_note notes.old) false) × (notes.new ≡ push (note_code (note at 0 false)) notes.old) }
{
    let number = note(notes, at as u32 + 1) - Pack::LOST;
    Context { number }
}

// A context without membership.
#[tactic(auto, unfolding(crate::specs::Noting::losing))]
fn lost(context: u32) -> u32
    requires { context < 134250496 }
    ensures { result ≡ losing context }
{
    context - context % Pack::INSIDE + Pack::LOST + context % Pack::LOST
}

// A row of scalars. The last one's own row, where it has one, takes the place of the row that ends with it: so how many are left does not
// fall by one each time, and no range counts them.
#[cycle(walkers)]
fn scalars(
    part: Words,
    start: usize,
    count: u32,
    levels: u32,
    context: u32,
    notes: &mut [u32],
) -> Result<usize, Fault>
    requires { (start ≤ length part.words.now) × Based part.words.now context }
    ensures { Rows part.entry.heads.now.names levels scalar count context part.entry.words.now start notes.old (walked result) notes.new }
{
    let mut at = start;
    let mut k = count;
    let mut left = levels;
    while 0 < k {
        let next = part.head(at, Pack::SCALAR, left)?;
        let w = part.words[at];
        let kind = w / Pack::VALUES;
        k -= 1;
        if Pack::ONE_CHILD <= kind {
            if k == 0 && kind <= Pack::MAX {
                at = next;
                k = children(kind, w % Pack::VALUES);
                left -= 1;
            } else {
                at = after_scalar(part, at, left - 1, context, notes)?;
            }
        } else {
            at = next;
        }
    }
    Ok(at)
}

// A row of judgments, in the same way. One function for both sorts cannot be proved: those that call each other must have the same type
// parameters.
#[cycle(walkers)]
fn judgments(
    part: Words,
    start: usize,
    count: u32,
    levels: u32,
    context: u32,
    notes: &mut [u32],
) -> Result<usize, Fault>
    requires { (start ≤ length part.words.now) × Based part.words.now context }
    ensures { Rows part.entry.heads.now.names levels judgment count context part.entry.words.now start notes.old (walked result) notes.new }
{
    let mut at = start;
    let mut k = count;
    let mut left = levels;
    while 0 < k {
        let next = part.head(at, Pack::JUDGMENT, left)?;
        let w = part.words[at];
        let kind = w / Pack::VALUES;
        k -= 1;
        if kind <= Pack::SAME_ENTITY {
            if k == 0 && Pack::AND <= kind && kind <= Pack::NOT {
                at = next;
                k = children(kind, w % Pack::VALUES);
                left -= 1;
            } else {
                at = after_judgment(part, at, left - 1, context, notes)?;
            }
        } else {
            at = next;
        }
    }
    Ok(at)
}

// The condition and the two cases of an If.
#[cycle(walkers)]
fn choice(
    part: Words,
    at: usize,
    left: u32,
    context: u32,
    notes: &mut [u32],
) -> Result<usize, Fault>
    requires { (at ≤ length part.words.now) × Based part.words.now context }
    ensures { Sorted part.entry.heads.now.names left (judgment ∷ scalar ∷ scalar ∷ []) context context part.entry.words.now at notes.old (walked result) notes.new }
{
    let next = judgments(part, at, 1, left, context, notes)?;
    scalars(part, next, 2, left, context, notes)
}

// The subject of a NoMatch, and so many patterns, which lose the membership.
#[cycle(walkers)]
fn patterns(
    part: Words,
    at: usize,
    count: u32,
    left: u32,
    context: u32,
    notes: &mut [u32],
) -> Result<usize, Fault>
    requires { (at ≤ length part.words.now) × Based part.words.now context }
    ensures { Sorted part.entry.heads.now.names left (replicate (count + 1) scalar) context (losing context) part.entry.words.now at notes.old (walked result) notes.new }
{
    let next = scalars(part, at, 1, left, context, notes)?;
    let without = lost(context);
    scalars(part, next, count, left, without, notes)
}

// The fields of an aggregate, which is noted, and its where tree, which is handed on as the part of the words that starts at its root:
// that is the base of its context, and places in the part count on from there. Of a Comparison the two scalars are walked at once.
#[cycle(walkers)]
fn aggregate(
    part: Words,
    at: usize,
    left: u32,
    context: u32,
    notes: &mut [u32],
) -> Result<usize, Fault>
    requires { (at ≤ length part.words.now) × Based part.words.now context }
    ensures { Shape part.entry.heads.now.names left true Aggregate 0 context part.entry.words.now at notes.old (walked result) notes.new }
{
    let root = part.aggregate_fields(at)?;
    let inner = note(notes, at as u32 + context) + context % Pack::LOST;
    let flag = part.words[at + 3] % Pack::VALUES;
    if flag == 1 {
        if part.compares(root, left) {
            return scalars(part, root + 1, 2, left - 1, inner, notes);
        }
    }
    let inside = Words {
        words: &part.words[root..],
        heads: part.heads,
    };
    match judgments(inside, 0, flag, left, inner + root as u32, notes) {
        Ok(next) => Ok(next + root),
        Err(fault) => Err(fault.behind(root)),
    }
}

// The arguments of an Exists, which is noted, and its body.
#[cycle(walkers)]
fn exists(
    part: Words,
    at: usize,
    left: u32,
    context: u32,
    notes: &mut [u32],
) -> Result<usize, Fault>
    requires { (at ≤ length part.words.now) × Based part.words.now context }
    ensures { Shape part.entry.heads.now.names left true Exists 0 context part.entry.words.now at notes.old (walked result) notes.new }
{
    let body = part.atom(at)?;
    let _ = note(notes, at as u32 + context);
    judgments(part, body, 1, left, context, notes)
}

// What follows the head word of a scalar at a place. It has a twin for judgments below: 01 asks by name for two walkers that call each other.
#[cycle(walkers)]
fn after_scalar(
    part: Words,
    at: usize,
    left: u32,
    context: u32,
    notes: &mut [u32],
) -> Result<usize, Fault>
    requires { (at < length part.words.now) × (kind_of (get_or part.words.now at 0) ≤ 95) × Based part.words.now context }
    ensures { After part.entry.heads.now.names left context part.entry.words.now at notes.old (walked result) notes.new }
{
    let w = part.words[at];
    let kind = w / Pack::VALUES;
    let v = w % Pack::VALUES;
    match kind {
        Pack::COUNT..=Pack::SINGLE => aggregate(part, at + 1, left, context, notes),
        Pack::ONE_CHILD..=Pack::MAX => {
            let count = children(kind, v);
            scalars(part, at + 1, count, left, context, notes)
        }
        _ => after_other(part, at, left, context, notes),
    }
}

// The same of one that is neither an aggregate nor a row of scalars. Aggregates, which are most, are told first.
#[cycle(walkers)]
fn after_other(
    part: Words,
    at: usize,
    left: u32,
    context: u32,
    notes: &mut [u32],
) -> Result<usize, Fault>
    requires { (at < length part.words.now) × OtherScalar (kind_of (get_or part.words.now at 0)) × Based part.words.now context }
    ensures { After part.entry.heads.now.names left context part.entry.words.now at notes.old (walked result) notes.new }
{
    let w = part.words[at];
    let kind = w / Pack::VALUES;
    let v = w % Pack::VALUES;
    match kind {
        Pack::NO_MATCH => patterns(part, at + 1, v, left, context, notes),
        Pack::OVER_PERIODS => {
            let count = children(kind, v);
            scalars(part, at + 1, count, left, lost(context), notes)
        }
        Pack::IF => choice(part, at + 1, left, context, notes),
        Pack::ONLY_RELATED => {
            let _ = note(notes, at as u32 + 1 + context);
            part.only_related(at + 1)
        }
        _ => Ok(at + 1),
    }
}

// What follows the head word of a judgment at a place.
#[cycle(walkers)]
fn after_judgment(
    part: Words,
    at: usize,
    left: u32,
    context: u32,
    notes: &mut [u32],
) -> Result<usize, Fault>
    requires { (at < length part.words.now) × (96 ≤ kind_of (get_or part.words.now at 0)) × Based part.words.now context }
    ensures { After part.entry.heads.now.names left context part.entry.words.now at notes.old (walked result) notes.new }
{
    let w = part.words[at];
    let kind = w / Pack::VALUES;
    match kind {
        Pack::COMPARISON => scalars(part, at + 1, 2, left, context, notes),
        Pack::AND..=Pack::NOT => judgments(
            part,
            at + 1,
            children(kind, w % Pack::VALUES),
            left,
            context,
            notes,
        ),
        Pack::RELATION_MEMBER => {
            let _ = note(notes, at as u32 + 1 + context);
            part.slots(at + 1)
        }
        Pack::RELATION_ATOM => {
            let _ = note(notes, at as u32 + 1 + context);
            part.atom(at + 1)
        }
        Pack::EXISTS => exists(part, at + 1, left, context, notes),
        Pack::SAME_ENTITY => {
            let _ = note(notes, at as u32 + 1 + context);
            Ok(at + 1)
        }
        _ => Ok(at + 1),
    }
}

// The tree of a body or predicate in a context.
pub fn scalar(part: Words, c: Cursor, context: Context, notes: &mut [u32]) -> Step
    requires { c.at ≤ length part.words.now }
    ensures { NotedStep (root part.entry.heads.now.names scalar) (λ u. note_tree context.number u) part.entry.words.now c.at notes.old result notes.new }
{
    let at = scalars(part, c.at, 1, Pack::DEPTH, context.number, notes)?;
    Ok((0, Cursor { at }))
}

pub fn judgment(part: Words, c: Cursor, context: Context, notes: &mut [u32]) -> Step
    requires { c.at ≤ length part.words.now }
    ensures { NotedStep (root part.entry.heads.now.names judgment) (λ u. note_tree context.number u) part.entry.words.now c.at notes.old result notes.new }
{
    let next = part.head(c.at, Pack::JUDGMENT, Pack::DEPTH)?;
    // many predicates are a leaf, for which a call would take longer than the work
    if Pack::SAME_ENTITY < part.words[c.at] / Pack::VALUES {
        return Ok((0, Cursor { at: next }));
    }
    let at = judgments(part, c.at, 1, Pack::DEPTH, context.number, notes)?;
    Ok((0, Cursor { at }))
}
