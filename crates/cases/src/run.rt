// Running the entries of a list.
use crate::call::judge;
use crate::difference::Difference;
use crate::list::{IllFormed, List, ROW};
use crate::operation::Operation;
use crate::totals::Totals;
use std::io::Read;

// The words that can be lent to a call.
const ROOM: usize = 10240;

// The pack of the last case, of so many words, what calls write to, and what was run so far. Arrays, so that a run asks for no memory, and
// no `ArrayVec`, which would stand on the stack a second time while it is made.
#[derive(Drop)]
struct Run {
    pack: [u32; ROW],
    length: usize,
    out: [u32; ROOM],
    totals: Totals,
}

impl Run {
    // Reads an entry and its words, and runs it. False at the end of the list.
    fn next<R: Read + Drop>(
        &mut self,
        rt: &impl Print,
        list: &mut List<R>,
    ) -> Result<bool, IllFormed> {
        let entry = list.entry()?;
        if let Ok(Operation::End) = entry.operation {
            list.end()?;
            return Ok(false);
        }
        let words = list.words(entry)?;
        match entry.operation? {
            Operation::Pack => {
                for (to, word) in self.pack.iter_mut().zip(words) {
                    *to = *word;
                }
                self.length = words.len();
                self.totals.case(words);
            }
            Operation::Call(call) => {
                let (pack, _) = self.pack.split_at_checked(self.length).ok_or(IllFormed)?;
                let found = judge(call, entry, pack, words, &mut self.out);
                self.totals.call(call);
                if let Err(difference) = found {
                    self.totals.tell(rt, difference);
                }
            }
            Operation::Part | Operation::End => {}
        }
        Ok(true)
    }

    // A proved loop has to end: no list has so many entries.
    fn all<R: Read + Drop>(
        &mut self,
        rt: &impl Print,
        list: &mut List<R>,
    ) -> Result<(), IllFormed> {
        for _ in 0..u64::MAX {
            if !self.next(rt, list)? {
                break;
            }
        }
        Ok(())
    }
}

// Runs the whole list, and tells what differs and what was run. What cannot be written is lost, and the list is run on.
pub fn run_list<R: Read + Drop>(rt: &impl Print, reader: R) {
    let mut list = List::new(reader);
    let mut run = Run {
        pack: [0; ROW],
        length: 0,
        out: [0; ROOM],
        totals: Totals::default(),
    };
    if run.all(rt, &mut list).is_err() {
        run.totals.tell(rt, Difference::IllFormed);
    }
    let _ = print!(rt; "{}", run.totals);
}
