// The scan file: three sections of u32 words, little-endian, each after its count: ε (2 words), fractions (two words each, at most 128 words),
// observations (at most 8,192). Any bytes are taken in; those that break the layout are refused with FILE.
#![tactic(auto)]

ghost use Rattle.std.specs.Prelude.{◌≡◌, ◌<◌, ◌^◌, get_or};
ghost use Rattle.scan_file.specs.Answers.{answer};
ghost use Rattle.scan_file.specs.Layout.{parsed, fraction_at, observation_at, fraction_words, observations, file_bytes};
ghost use Rattle.scan_file.specs.Promises.{Promises};
ghost use Rattle.scan_file.specs.Words.{word_at};

use fraction::Fraction;
use refusal::Refusal;

// What a scan file holds: ε, and how many fractions and observations. They are read in place: the layout is public and holds numbers alone, and the
// bytes are lent beside it.
#[derive(Clone, Copy)]
pub struct Layout {
    pub epsilon: Fraction,
    pub fractions: u32,
    pub observations: u32,
}

// The byte at a place, and 0 behind the end: of a word that the file cuts the bytes that are there count.
fn byte_at(bytes: &[u8], at: usize) -> u8
    ensures { result ≡ get_or bytes.now at 0 }
{
    bytes.get(at).copied().unwrap_or(0)
}

// Word i.
fn word_at(bytes: &[u8], i: usize) -> u32
    requires { i < 2 ^ 40 }
    ensures { result ≡ word_at bytes.now i }
{
    let at = 4 * i;
    u32::from_le_bytes([
        byte_at(bytes, at),
        byte_at(bytes, at + 1),
        byte_at(bytes, at + 2),
        byte_at(bytes, at + 3),
    ])
}

// Reads the counts, and tests them and the length. A count is tested against its limit before anything is reckoned from it; what a short file
// lacks is read as 0, and its length, tested last, refuses it.
pub fn parse(bytes: &[u8]) -> Result<Layout, Refusal>
    ensures { result ≡ answer (parsed bytes.now) }
{
    let words = word_at(bytes, 3);
    if word_at(bytes, 0) != 2 || words > Layout::FRACTION_WORDS || words % 2 != 0 {
        return Err(Refusal::File);
    }
    let count = word_at(bytes, 4 + words as usize);
    if count > Layout::OBSERVATIONS || bytes.len() != 4 * (5 + words as usize + count as usize) {
        return Err(Refusal::File);
    }
    Ok(Layout {
        epsilon: Fraction {
            num: word_at(bytes, 1),
            den: word_at(bytes, 2),
        },
        fractions: words / 2,
        observations: count,
    })
}

impl Layout {
    // The most words of fractions, two to a fraction.
    pub const FRACTION_WORDS: u32 = 128;

    // The most observations.
    pub const OBSERVATIONS: u32 = 8192;

    // The most bytes of a file.
    pub const BYTES: usize = 33300;

    // The limits as functions: their contracts tie the constants to the definitions.
    pub fn fraction_words() -> u32
        ensures { result ≡ fraction_words }
    {
        Layout::FRACTION_WORDS
    }

    pub fn most_observations() -> u32
        ensures { result ≡ observations }
    {
        Layout::OBSERVATIONS
    }

    pub fn most_bytes() -> usize
        ensures { result ≡ file_bytes }
    {
        Layout::BYTES
    }

    // Fraction i of the file.
    pub fn fraction(self, bytes: &[u8], i: u32) -> Fraction
        ensures { result ≡ fraction_at bytes.now i }
    {
        let at = 4 + 2 * (i as usize);
        Fraction {
            num: word_at(bytes, at),
            den: word_at(bytes, at + 1),
        }
    }

    // Observation i of the file.
    pub fn observation(self, bytes: &[u8], i: u32) -> u32
        ensures { result ≡ observation_at bytes.now self.fractions i }
    {
        word_at(bytes, 5 + 2 * (self.fractions as usize) + i as usize)
    }
}

// What is shown of the layout. The theorems are in proofs/; this contract states them, so that none can go missing.
pub fn promises()
    ensures { Promises }
{}
