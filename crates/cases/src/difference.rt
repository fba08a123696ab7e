// Answers and buffers, expected and found.
use definitions::answer::{Answer, Given, Refusal};
use std::fmt;

// What a buffer holds before a call: words of the kind 222, which no pack has, that begin with this one and grow by 1.
const MARK: u32 = 0xDEAD0000;

// What differs: the answer of a call, a word that it leaves, or the list itself, which asks for what there is not.
#[derive(Clone, Copy)]
pub enum Difference {
    Answer {
        expected: Answer,
        came: Answer,
    },
    Word {
        place: usize,
        expected: u32,
        came: u32,
    },
    IllFormed,
}

// An answer as it is shown.
#[derive(Clone, Copy)]
struct Shown(Answer);

impl fmt::Display for Shown {
    fn fmt<W: fmt::Write>(&self, f: &mut fmt::Formatter<W>) -> fmt::Result {
        match self.0 {
            Ok(Given { value, steps }) => write!(f, "given {value} {steps}"),
            Err(
                Refusal {
                    number,
                    place,
                    name,
                    other,
                },
            ) => write!(f, "refused {number} {place} {name} {other}"),
        }
    }
}

impl fmt::Display for Difference {
    fn fmt<W: fmt::Write>(&self, f: &mut fmt::Formatter<W>) -> fmt::Result {
        match *self {
            Difference::Answer { expected, came } => {
                write!(f, "expected {}, came {}", Shown(expected), Shown(came))
            }
            Difference::Word {
                place,
                expected,
                came,
            } => write!(f, "word {place}: expected {expected:08x}, came {came:08x}"),
            Difference::IllFormed => f.write_str("the list is ill-formed"),
        }
    }
}

// Marks a buffer before a call.
pub fn mark(out: &mut [u32]) {
    let mut mark = MARK;
    for word in out.iter_mut() {
        *word = mark;
        mark = mark.wrapping_add(1);
    }
}

// The buffer has to hold these words, and after them what it held before: two loops, so that neither asks at each word which of both
// it has to be.
pub fn compare_words(out: &[u32], words: &[u32]) -> Result<(), Difference> {
    let (written, kept) = out.split_at(words.len().min(out.len()));
    let mut mark = MARK;
    for (place, (came, expected)) in written
        .iter()
        .copied()
        .zip(words.iter().copied())
        .enumerate()
    {
        if came != expected {
            return Err(Difference::Word {
                place,
                expected,
                came,
            });
        }
        mark = mark.wrapping_add(1);
    }
    for (place, came) in kept.iter().copied().enumerate() {
        if came != mark {
            return Err(Difference::Word {
                place: written.len() + place,
                expected: mark,
                came,
            });
        }
        mark = mark.wrapping_add(1);
    }
    Ok(())
}
