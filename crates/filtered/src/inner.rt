// The walks along the direct kinds that the words of a directory say: an answer is 1 and the name that a chain ends at, 0 in a ring.
ghost use Rattle.filtered.specs.Said.{InnerSettleable, InnerSettled};

use chains::settle::walk;

// The walks from all names in order: the number of words read. The names are all numbers below the number of marks, so no slice holds
// them, as one does for the chain walk's `settle_all`; that both call `walk` in a loop is all that they share, and an iterator of names
// for the two would be longer than the loops.
pub fn settle_all(dir: &[u32], marks: &mut [u32]) -> u32
    requires { InnerSettleable dir.now marks.old }
    ensures { InnerSettled dir.now marks.old marks.new result }
{
    let mut steps: u32 = 0;
    let fuel = marks.len() as u32 + 1;
    for name in 0..marks.len() {
        walk(dir, marks, &mut steps, name, fuel);
    }
    steps
}
