// A call of an operation, held to its entry.
use crate::difference;
use crate::difference::Difference;
use crate::list::Entry;
use crate::operation::Call;
use checking::check::check;
use checking::rewrite::rewrite;
use definitions::answer::Answer;
use filtered::filtered::filtered;
use kinds::all_kinds::all_kinds;
use kinds::kinds_of::kinds_of;
use kinds::lean::lean;
use resolve::resolve::resolve;

// A list names its calls by numbers, and this is the one place that goes from them to the functions.
fn answer_of(call: Call, entry: Entry, pack: &[u32], out: &mut [u32]) -> Answer {
    match call {
        Call::Check => check(pack),
        Call::Rewrite => rewrite(pack, out),
        Call::AllKinds => all_kinds(pack, out),
        Call::KindsOf => kinds_of(pack, entry.first),
        Call::Lean => lean(pack, entry.first, entry.second),
        Call::Filtered(filter) => filtered(pack, filter, out),
        Call::Resolve => resolve(pack, out),
    }
}

// A call on the pack has to answer as its entry says, and to leave these words in `out` and then what it held before. It is lent the
// first words of `out`, as many as the entry says.
pub fn judge(
    call: Call,
    entry: Entry,
    pack: &[u32],
    words: &[u32],
    out: &mut [u32],
) -> Result<(), Difference> {
    difference::mark(out);
    let (lent, _) = out
        .split_at_mut_checked(entry.room as usize)
        .ok_or(Difference::IllFormed)?;
    let came = answer_of(call, entry, pack, lent);
    let expected = entry.expected;
    if came != expected {
        return Err(Difference::Answer { expected, came });
    }
    difference::compare_words(out, words)
}
