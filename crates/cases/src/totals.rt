// What was run so far.
use crate::difference::Difference;
use crate::operation::Call;
use std::fmt;

// How many cases, and the calls on the last of them; the calls of all, and those of Rewrite; how many differ; and the words of all
// packs, with their sum.
#[derive(Clone, Copy, Default)]
pub struct Totals {
    cases: u64,
    call: u64,
    calls: u64,
    rewrites: u64,
    differ: u64,
    words: u64,
    sum: u32,
}

// No run counts so far that it wraps.
fn more(n: u64) -> u64 {
    n.wrapping_add(1)
}

impl Totals {
    // One case more, whose pack are these words.
    pub fn case(&mut self, pack: &[u32]) {
        self.sum = pack
            .iter()
            .fold(self.sum, |sum, word| sum.wrapping_add(*word));
        self.words = self.words.wrapping_add(pack.len() as u64);
        self.cases = more(self.cases);
        self.call = 0;
    }

    // One call more.
    pub fn call(&mut self, call: Call) {
        self.call = more(self.call);
        match call {
            Call::Check => {}
            Call::Rewrite => self.rewrites = more(self.rewrites),
            _ => self.calls = more(self.calls),
        }
    }

    // Tells what differs at the last call. It is known by the number of its case in the list and its own in the case, both from 1.
    pub fn tell(&mut self, rt: &impl Print, difference: Difference) {
        self.differ = more(self.differ);
        let _ = println!(rt; "case {}, call {}: {difference}", self.cases, self.call);
    }
}

impl fmt::Display for Totals {
    fn fmt<W: fmt::Write>(&self, f: &mut fmt::Formatter<W>) -> fmt::Result {
        let Totals {
            cases,
            call: _,
            calls,
            rewrites,
            differ,
            words,
            sum,
        } = *self;
        writeln!(
            f,
            "{words} words, sum {sum:08x}, {rewrites} rewrites, {calls} calls"
        )?;
        writeln!(f, "{cases} cases, {differ} differ")
    }
}
