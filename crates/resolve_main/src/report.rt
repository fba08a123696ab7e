// An answer as text. Each function adds to a text what it says. `write!` may fail, and what is printed never does, so the pieces are put
// one behind the other.
ghost use Rattle.std.specs.Prelude.{◌≡◌, ◌++◌, ◌+◌, ◌*◌, ◌/◌, ◌<◌, ◌≤◌, length, take};
ghost use Rattle.arrayvec.specs.ArrayVec.{array_vec_len};
ghost use Rattle.definitions.specs.Bytes.{words_of, decode};
ghost use Rattle.definitions.specs.Text.{digit_of, spaced, line_of, lines_of, ok_line, refused_line, text_of, printed};
ghost use Rattle.resolve_main.specs.Printing.{number_bytes, first_line_bytes, word_line_bytes};

use arrayvec::ArrayVec;
use cogunwa::cogunwa_resolve;
use definitions::answer::{Given, Refusal};
use itoa::Buffer;
use pack::kinds::Pack;
use wire::answer::decode;

// How many bytes a text has at most.
#[derive(Clone, Copy)]
pub struct Text {}

impl Text {
    // The digits of a number of 64 bits.
    pub const DIGITS: usize = 20;

    // A number after a space.
    pub const NUMBER: usize = 1 + Text::DIGITS;

    // A first line: `refused`, four numbers, and its end.
    pub const FIRST_LINE: usize = 8 + 4 * Text::NUMBER;

    // The line of a word: eight digits, and its end.
    pub const WORD_LINE: usize = 9;

    // All that is printed of a pack.
    pub const ALL: usize = Text::FIRST_LINE + Text::WORD_LINE * Pack::MOST_WORDS;
}

fn put<const N: usize>(bytes: &[u8], text: &mut ArrayVec<u8, N>)
    requires { array_vec_len text.old + length bytes.now ≤ N }
    ensures { text.new.items ≡ text.old.items ++ bytes.now }
{
    text.try_extend_from_slice(bytes).unwrap()
}

// A number after a space.
#[tactic(auto, using(crate::proofs::DecimalLaws::spaced_as))]
fn put_number<const N: usize>(n: u64, text: &mut ArrayVec<u8, N>)
    requires { array_vec_len text.old + number_bytes ≤ N }
    ensures added { text.new.items ≡ text.old.items ++ spaced n }
    ensures few { array_vec_len text.new ≤ array_vec_len text.old + number_bytes }
{
    text.push(b' ');
    put(Buffer::new().format(n).as_bytes(), text)
}

// An upper-case hexadecimal digit; those of `char::from_digit` are lower-case.
fn digit(d: u32) -> u8
    requires { d < 16 }
    ensures { result ≡ digit_of d }
{
    if d < 10 {
        b'0' + d as u8
    } else {
        b'A' - 10 + d as u8
    }
}

// A word on a line of its own.
fn put_line<const N: usize>(word: u32, text: &mut ArrayVec<u8, N>)
    requires { array_vec_len text.old + word_line_bytes ≤ N }
    ensures { text.new.items ≡ text.old.items ++ line_of word }
{
    text.push(digit(word / 0x1000_0000 % 16));
    text.push(digit(word / 0x100_0000 % 16));
    text.push(digit(word / 0x10_0000 % 16));
    text.push(digit(word / 0x1_0000 % 16));
    text.push(digit(word / 0x1000 % 16));
    text.push(digit(word / 0x100 % 16));
    text.push(digit(word / 0x10 % 16));
    text.push(digit(word % 16));
    text.push(b'\n');
}

// The first words of the output, or all where there are fewer.
#[tactic(auto, using(crate::proofs::LineLaws::no_lines, crate::proofs::LineLaws::line_more, crate::proofs::LineLaws::line_long, crate::proofs::LineLaws::lines_all))]
fn put_lines<const N: usize>(out: &[u8], count: usize, text: &mut ArrayVec<u8, N>)
    requires { array_vec_len text.old + word_line_bytes * (length out.now / 4) ≤ N }
    ensures { text.new.items ≡ text.old.items ++ lines_of (take count (words_of out.now)) }
{
    let (words, _) = out.as_chunks::<4>();
    for word in &words[..count.min(words.len())] {
        put_line(u32::from_le_bytes(*word), text);
    }
}

fn put_ok_line<const N: usize>(given: Given, text: &mut ArrayVec<u8, N>)
    requires { array_vec_len text.old + first_line_bytes ≤ N }
    ensures added { text.new.items ≡ text.old.items ++ ok_line given.value given.steps }
    ensures few { array_vec_len text.new ≤ array_vec_len text.old + first_line_bytes }
{
    put(b"ok", text);
    put_number(u64::from(given.value), text);
    put_number(u64::from(given.steps), text);
    text.push(b'\n');
}

fn put_refused_line<const N: usize>(r: Refusal, text: &mut ArrayVec<u8, N>)
    requires { array_vec_len text.old + first_line_bytes ≤ N }
    ensures { text.new.items ≡ text.old.items ++ refused_line r.number r.place r.name r.other }
{
    put(b"refused", text);
    put_number(r.number as u64, text);
    put_number(r.place as u64, text);
    put_number(r.name as u64, text);
    put_number(r.other as u64, text);
    text.push(b'\n');
}

// The text of the answer that a number is of, with the words of the output. The text is lent: handed back by value it would stand on
// the stack once for each function that it goes through.
#[tactic(auto, unfolding(definitions::specs::Text::text_of))]
pub fn report<const N: usize>(answer: u64, out: &[u8], text: &mut ArrayVec<u8, N>)
    requires { first_line_bytes + word_line_bytes * (length out.now / 4) ≤ N }
    ensures { text.new.items ≡ text_of (decode answer) (words_of out.now) }
{
    text.clear();
    match decode(answer) {
        Ok(given) => {
            put_ok_line(given, text);
            put_lines(out, given.value as usize, text);
        }
        Err(r) => put_refused_line(r, text),
    }
}

// The text of what Resolve answers for a pack, and of the words that it writes.
pub fn resolved_text<const N: usize>(pack: &[u8], text: &mut ArrayVec<u8, N>)
    requires { first_line_bytes + word_line_bytes * 8192 ≤ N }
    ensures { text.new.items ≡ printed pack.now }
{
    let mut out = [0u8; 4 * Pack::MOST_WORDS];
    let answer = cogunwa_resolve(pack, &mut out);
    report(answer, &out, text);
}
