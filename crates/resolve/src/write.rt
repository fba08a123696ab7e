// Writing the whole pack, one piece of the resolved words after the other, each relation with the list stamped on it.
// `pack` are the words in which the lists stand.
ghost use Rattle.std.specs.Prelude.{◌≡◌, length, get_or};
ghost use Rattle.resolve.specs.Pieces.{WriteAsked, RecordsPut, WriteCame};

use crate::writer::Writer;
use pack::kinds::Pack;

// The words of a slice in another of the same length. By a loop: the library's method calls C's `memmove`, which the archive for C
// needs for nothing else.
pub fn copy(from: &[u32], to: &mut [u32])
    requires { length to.old ≡ length from.now }
    ensures { to.new ≡ from.now }
{
    for (i, word) in from.iter().enumerate() {
        to[i] = *word;
    }
}

// The i-th place of a table, past its end another.
fn place_at(places: &[u32], i: usize, end: usize) -> usize
    ensures { result ≡ get_or places.now i end }
{
    match places.get(i) {
        Some(&place) => place as usize,
        None => end,
    }
}

// All records, in a slice with as many words, each at the place that the one before it hands on: the place after the last. Places are looked
// into by index, since a piece ends where the next begins.
// In the pack's words each ends where the next begins, the last where the words end.
fn put_records(pack: &[u32], work: &[u32], places: &[u32], lists: &[u32], writer: &mut Writer)
    requires { WriteAsked pack.now places.now lists.now work.now (length writer.old.out.now) × (writer.old.to ≡ 0) }
    ensures same_reference { writer.new.out.ghost_name ≡ writer.old.out.ghost_name }
    ensures long { length writer.new.out.now ≡ length writer.old.out.now }
    ensures put { RecordsPut pack.now places.now lists.now work.now (length writer.old.out.now) writer.new.out.now writer.new.to }
{
    let mut start = 0;
    for (i, &list) in lists.iter().enumerate() {
        let end = place_at(places, i + 1, work.len());
        writer.put_record(pack, list, &work[start..end]);
        start = end;
    }
}

// The whole pack: its records, and then the total, which is the running place at the end.
pub fn write(pack: &[u32], work: &[u32], places: &[u32], lists: &[u32], out: &mut [u32])
    requires { WriteAsked pack.now places.now lists.now work.now (length out.old) }
    ensures { WriteCame pack.now places.now lists.now work.now (length out.old) out.new }
{
    let mut writer = Writer::new(out);
    put_records(pack, work, places, lists, &mut writer);
    let end = writer.to;
    out[0] = Pack::TOTAL * Pack::VALUES + end as u32;
}
