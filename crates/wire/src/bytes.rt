// Words as bytes: four a word, low byte first. Both loops write by index: of a slice that is written through a zip, or by chunks, a proof
// knows the length alone.
ghost use Rattle.std.specs.Prelude.{◌≡◌, ◌++◌, ◌*◌, ◌/◌, ◌≤◌, min, length, drop};
ghost use Rattle.definitions.specs.Bytes.{bytes_of, are_words};
ghost use Rattle.wire.specs.Loading.{Holds, Loaded, Fronted};

use pack::kinds::Pack;

// Whether so many bytes are words, and not more than a pack may have.
fn are_words(count: usize) -> bool
    ensures { result ≡ are_words count }
{
    count % 4 == 0 && count <= 4 * Pack::MOST_WORDS
}

// The words that an output of so many bytes has room for, but no more than so many.
pub fn room(count: usize, most: usize) -> usize
    ensures { result ≡ min (count / 4) most }
{
    (count / 4).min(most)
}

// The words of the bytes, at the front of the slice, and how many there are. Bytes that are no words give none, which every operation refuses by 1.
pub fn load(bytes: &[u8], words: &mut [u32]) -> usize
    requires { Holds (length bytes.now) (length words.old) }
    ensures { Fronted bytes.now result words.new }
{
    if !are_words(bytes.len()) {
        return 0;
    }
    let (fours, _) = bytes.as_chunks::<4>();
    for (i, four) in fours.iter().enumerate() {
        words[i] = u32::from_le_bytes(*four);
    }
    fours.len()
}

// The same, as a slice of them. Of the slice that was lent its callers know no more afterwards than how long it is.
pub fn loaded<'a>(bytes: &[u8], words: &'a mut [u32]) -> &'a [u32]
    requires { Holds (length bytes.now) (length words.old) }
    ensures { Loaded bytes.now (length words.old) result.now }
{
    let n = load(bytes, words);
    &words[..n]
}

// The bytes of the words; the bytes past them stay.
pub fn store(words: &[u32], out: &mut [u8])
    requires { 4 * length words.now ≤ length out.old }
    ensures { out.new ≡ bytes_of words.now ++ drop (4 * length words.now) out.old }
{
    for (i, word) in words.iter().enumerate() {
        out[4 * i..4 * i + 4].copy_from_slice(&word.to_le_bytes());
    }
}
