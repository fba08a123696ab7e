// The operations over bytes: each loads the pack's words and answers by one number. Clearing large arrays would take longer
// than the work on a small pack: it has small ones. A size is an argument that must be a constant, so each is written out.
ghost use Rattle.std.specs.Prelude.{◌≡◌, ◌+◌, ◌≤◌, length};
ghost use Rattle.definitions.specs.Bytes.{encode, over_bytes, Gives};
ghost use Rattle.wire.specs.Loading.{Holds, Tried};
ghost use Rattle.definitions.specs.Operations.{filter_answer, filter_buffer, resolve_answer, resolve_buffer, answer_to, answer_of, buffer_of};
ghost use Rattle.definitions.specs.Answers.{Answered};
ghost use Rattle.definitions.specs.declared.operation.Writing.{Writing};
ghost use Rattle.over_bytes.specs.BytesPromises.{Runs};

use checking::check::check;
use checking::rewrite::rewrite;
use definitions::answer::Answer;
use definitions::operation::{Question, Writing};
use filtered::filtered::filtered;
use kinds::all_kinds::all_kinds;
use kinds::kinds_of::kinds_of;
use kinds::lean::lean;
use pack::kinds::Pack;
use resolve::resolve::resolve_into;
use wire::answer::{encode, lacks_room, put};
use wire::bytes::{loaded, room};

// How many words small packs have, and how many most of what they give has.
#[derive(Clone, Copy)]
pub struct Short {}

impl Short {
    pub const BYTES: usize = 4 * Pack::FEW_WORDS;

    pub const WRITTEN: usize = 1024;

    // Room for what Resolve makes, there and at most.
    pub const MADE: usize = Short::WRITTEN + 1;

    pub const MOST_MADE: usize = Pack::MOST_WORDS + 1;
}

// A host names its question by an enum, and this is the one place that goes from it to the function.
fn answer_to(q: Question, words: &[u32]) -> Answer
    ensures { result ≡ answer_to q words.now }
{
    match q {
        Question::Check => check(words),
        Question::KindsOf(name) => kinds_of(words, name),
        Question::Lean(a, b) => lean(words, a, b),
    }
}

// With room for the words of the pack.
fn ask_in<const WORDS: usize>(q: Question, pack: &[u8]) -> u64
    requires { Holds (length pack.now) WORDS × (WORDS ≤ 8192) }
    ensures { result ≡ encode (over_bytes (answer_to q) pack.now) }
{
    let mut words = [0u32; WORDS];
    let words = loaded(pack, &mut words);
    encode(answer_to(q, words))
}

pub fn ask(q: Question, pack: &[u8]) -> u64
    ensures { result ≡ encode (over_bytes (answer_to q) pack.now) }
{
    if pack.len() <= Short::BYTES {
        return ask_in::<{ Pack::FEW_WORDS }>(q, pack);
    }
    ask_in::<{ Pack::MOST_WORDS }>(q, pack)
}

// With room for the words of the pack and for those that are written, of which the output is given as many as are answered.
fn write_in<F: Fn(&[u32], &mut [u32]) -> Answer, const WORDS: usize, const ROOM: usize>(
    run: &F,
    pack: &[u8],
    out: &mut [u8],
) -> Answer
    requires { Holds (length pack.now) WORDS × (WORDS ≤ 8192) × (ROOM ≤ 8192) × F.IsAlwaysCallable run.now × ((w : Writing) × Runs (F.post run.now) w) }
    ensures { (w : Writing) → Runs (F.post run.now) w → Tried (answer_of w) (buffer_of w) pack.now ROOM out.old result out.new }
{
    let mut words = [0u32; WORDS];
    let words = loaded(pack, &mut words);
    let mut written = [0u32; ROOM];
    let written = &mut written[..];
    let m = room(out.len(), written.len());
    let a = run(words, &mut written[..m]);
    put(a, written, out);
    a
}

// No operation writes more than 8,192 words. What a small pack gives most often fits the short slice: only where that is
// refused for want of room, by 16, it is run again. This is for those that leave their slice alone where they refuse.
fn written<F: Fn(&[u32], &mut [u32]) -> Answer>(run: F, pack: &[u8], out: &mut [u8]) -> u64
    requires { F.IsAlwaysCallable run × ((w : Writing) × Runs (F.post run) w) }
    ensures { (w : Writing) → Runs (F.post run) w → Gives (answer_of w) (buffer_of w) pack.now out.old result out.new }
{
    if pack.len() <= Short::BYTES {
        let a = write_in::<F, { Pack::FEW_WORDS }, { Short::WRITTEN }>(&run, pack, out);
        if !lacks_room(a) {
            return encode(a);
        }
    }
    let a = write_in::<F, { Pack::MOST_WORDS }, { Pack::MOST_WORDS }>(&run, pack, out);
    encode(a)
}

// Resolve likewise, but by functions of its own: its notes stand in the slice before what is written, so it has one word more
// than may be written, is passed the whole slice with the room, and promises of the slice only its front.
fn resolve_in<const WORDS: usize, const ROOM: usize, const MADE: usize>(
    pack: &[u8],
    out: &mut [u8],
) -> Answer
    requires { Holds (length pack.now) WORDS × (WORDS ≤ ROOM) × (ROOM ≤ 8192) × (MADE ≡ ROOM + 1) }
    ensures { Tried resolve_answer resolve_buffer pack.now ROOM out.old result out.new }
{
    let mut words = [0u32; WORDS];
    let words = loaded(pack, &mut words);
    let mut made = [0u32; MADE];
    let made = &mut made[..];
    let m = room(out.len(), ROOM);
    let a = resolve_into(words, made, m);
    put(a, made, out);
    a
}

fn resolved(pack: &[u8], out: &mut [u8]) -> u64
    ensures { Gives resolve_answer resolve_buffer pack.now out.old result out.new }
{
    if pack.len() <= Short::BYTES {
        let given = resolve_in::<{ Pack::FEW_WORDS }, { Short::WRITTEN }, { Short::MADE }>(
            pack, out,
        );
        if !lacks_room(given) {
            return encode(given);
        }
    }
    let a = resolve_in::<{ Pack::MOST_WORDS }, { Pack::MOST_WORDS }, { Short::MOST_MADE }>(
        pack, out,
    );
    encode(a)
}

pub fn write(w: Writing, pack: &[u8], out: &mut [u8]) -> u64
    ensures { Gives (answer_of w) (buffer_of w) pack.now out.old result out.new }
{
    match w {
        Writing::Rewrite => written(rewrite, pack, out),
        Writing::AllKinds => written(all_kinds, pack, out),
        Writing::Filtered(filter) => {
            let run = move |words: &[u32], lent: &mut [u32]| -> Answer
                ensures { Answered (filter_answer filter) (filter_buffer filter) words.now lent.old result lent.new }
            { filtered(words, filter, lent) };
            written(run, pack, out)
        }
        Writing::Resolve => resolved(pack, out),
    }
}
