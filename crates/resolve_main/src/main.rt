// Resolves the pack that standard input holds as bytes, four a word, low byte first, and writes what comes of it:
// `ok LENGTH STEPS` and then the words, or `refused NUMBER PLACE NAME OTHER`.
#![tactic(auto)]

mod report;

ghost use Rattle.std.specs.Prelude.{◌≤◌, length};

use arrayvec::ArrayVec;
use report::{Text, resolved_text};
use std::io;
use std::io::{Read, Write};

// More bytes than a pack has at most, so that too many are seen and refused, and as many as a pipe holds, so that who writes them is
// not cut off.
const MOST_BYTES: usize = 65536;

// Fills the bytes as far as there are any to read: how many there were. Where reading fails, what was read before is all.
fn read_full<R: Read>(reader: &mut R, bytes: &mut [u8]) -> usize
    ensures { result ≤ length bytes.new }
{
    let mut count = 0;
    for _ in 0..bytes.len() {
        match reader.read(&mut bytes[count..]) {
            Ok(more) if 0 < more => count += more,
            _ => break,
        }
    }
    count
}

// What cannot be written is lost: the program has no other status than 0.
fn main(rt: HostRuntime) {
    let mut pack = [0u8; MOST_BYTES];
    let count = read_full(&mut rt.reader(), &mut pack);
    let mut text = ArrayVec::<u8, { Text::ALL }>::new();
    resolved_text(&pack[..count], &mut text);
    let _ = io::writer(&rt).write_all(text.as_slice());
}
