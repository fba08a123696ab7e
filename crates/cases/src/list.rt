// Entries of the list, as words of four bytes, low byte first.
use crate::operation::Operation;
use definitions::answer::{Answer, Given, Refusal};
use std::io;
use std::io::Read;

// The words that the row has room for.
pub const ROW: usize = 8448;

// So many words are read at once, by their bytes.
const WORDS: usize = 2048;

const BYTES: usize = 4 * WORDS;

// How many bytes are read after the end of a list, at most: as many as a pipe holds, so that who writes them is not cut off.
const MOST_AFTER: usize = 65536;

// The list cannot be read on, as where it ends before its end.
#[derive(Clone, Copy)]
pub struct IllFormed;

impl From<io::Error> for IllFormed {
    fn from(_error: io::Error) -> Self {
        IllFormed
    }
}

// The words of an entry, in a row that all entries share: it leaves the first `kept`, puts `count` that follow it after these, and
// after those `word`, `times` over.
#[derive(Clone, Copy)]
struct Part {
    kept: u32,
    count: u32,
    times: u32,
    word: u32,
}

#[derive(Clone, Copy)]
pub struct Entry {
    pub operation: Result<Operation, IllFormed>,
    pub room: u32,
    pub first: u32,
    pub second: u32,
    pub expected: Answer,
    part: Part,
}

// Of an answer that is given the number and the place are 0, the name is the value and the other the steps.
fn answer(number: u32, place: u32, name: u32, other: u32) -> Answer {
    if number == 0 && place == 0 {
        return Ok(Given {
            value: name,
            steps: other,
        });
    }
    Err(Refusal {
        number,
        place: place as usize,
        name,
        other,
    })
}

// A list as it is read, the row, and the bytes by which its words are read. An entry whose operation there is not is read with its words.
#[derive(Drop)]
pub struct List<R: Read + Drop> {
    reader: R,
    bytes: [u8; BYTES],
    row: [u32; ROW],
}

impl<R: Read + Drop> List<R> {
    pub fn new(reader: R) -> Self {
        List {
            reader,
            bytes: [0; BYTES],
            row: [0; ROW],
        }
    }

    pub fn entry(&mut self) -> Result<Entry, IllFormed> {
        let mut header = [0; 12];
        read_words(&mut self.reader, &mut self.bytes, &mut header)?;
        let [
            operation,
            room,
            first,
            second,
            number,
            place,
            name,
            other,
            kept,
            count,
            times,
            word,
        ] = header;
        Ok(Entry {
            operation: Operation::try_from(operation),
            room,
            first,
            second,
            expected: answer(number, place, name, other),
            part: Part {
                kept,
                count,
                times,
                word,
            },
        })
    }

    // The words of the entry that was read.
    pub fn words(&mut self, entry: Entry) -> Result<&[u32], IllFormed> {
        let part = entry.part;
        let kept = part.kept as usize;
        let to = kept + part.count as usize;
        let end = to + part.times as usize;
        let List { reader, bytes, row } = self;
        let (words, _) = row.split_at_mut_checked(end).ok_or(IllFormed)?;
        words[to..].fill(part.word);
        read_words(reader, bytes, &mut words[kept..to])?;
        Ok(words)
    }

    // After the end of the list nothing may stand. What cannot be read there does not.
    pub fn end(&mut self) -> Result<(), IllFormed> {
        let mut ended = Ok(());
        for _ in 0..MOST_AFTER / BYTES {
            let count = read_full(&mut self.reader, &mut self.bytes);
            if 0 < count {
                ended = Err(IllFormed);
            }
            if count < BYTES {
                break;
            }
        }
        ended
    }
}

// Fills the bytes as far as there are any to read: how many there were. Where reading fails, what was read before is all.
fn read_full<R: Read>(reader: &mut R, bytes: &mut [u8]) -> usize {
    let mut count = 0;
    for _ in 0..bytes.len() {
        match reader.read(&mut bytes[count..]) {
            Ok(more) if 0 < more => count += more,
            _ => break,
        }
    }
    count
}

// Fills the words with the next of the list, by way of `bytes`.
pub fn read_words<R: Read>(
    reader: &mut R,
    bytes: &mut [u8],
    words: &mut [u32],
) -> Result<(), IllFormed> {
    for part in words.chunks_mut(WORDS) {
        let (bytes, _) = bytes.split_at_mut_checked(4 * part.len()).ok_or(IllFormed)?;
        reader.read_exact(bytes)?;
        let (fours, _) = bytes.as_chunks::<4>();
        for (word, four) in part.iter_mut().zip(fours) {
            *word = u32::from_le_bytes(*four);
        }
    }
    Ok(())
}
