// The boundary to C and Rust: the stream's calls as exported functions. Lists are lent in place, states are structs of plain words by value, and
// an answer is a struct of numbers: the refusal's number or 0, and what the core answered. Every contract hands on the core's.
#![tactic(auto)]

ghost use Rattle.std.specs.Prelude.{◌≡◌};
ghost use Rattle.entries.specs.Entry.{entries_of};
ghost use Rattle.greenwald_khanna_told.specs.Answers.{told_p, told_n, told_s};
ghost use Rattle.stream_words.specs.Streams.{stream_of, flat_answer};
ghost use Rattle.stream_c.specs.Posts.{StreamOpenPost, StreamInsertPost, StreamQuantilePost};
ghost use Rattle.stream_c.specs.Promises.{Promises};

use greenwald_khanna::Stream;
use stream_words::{StreamAnswer, StreamWords};
use words::{Number, Ratio};

// A fresh stream. Refused: SLOTS, EPSILON.
#[unsafe(no_mangle)]
pub extern "C" fn stelo_stream_open(epsilon: Ratio, list: &mut [[u32; 3]]) -> StreamAnswer
    ensures { StreamOpenPost epsilon (entries_of list.old) result (entries_of list.new) }
{
    StreamAnswer::new(Stream::open(epsilon.into(), list), StreamWords::default())
}

// One observation more. Refused: SLOTS, DAMAGED, COUNT, FULL.
#[unsafe(no_mangle)]
pub extern "C" fn stelo_stream_insert(
    stream: StreamWords,
    list: &mut [[u32; 3]],
    v: u32,
) -> StreamAnswer
    ensures { StreamInsertPost stream (entries_of list.old) v result (entries_of list.new) }
{
    StreamAnswer::new(greenwald_khanna::insert(stream.into(), list, v), stream)
}

// The φ-quantile. Refused: SLOTS, DAMAGED, PHI, EMPTY.
#[unsafe(no_mangle)]
pub extern "C" fn stelo_stream_quantile(
    stream: StreamWords,
    list: &[[u32; 3]],
    phi: Ratio,
) -> Number
    ensures { StreamQuantilePost stream (entries_of list.now) phi result }
{
    Number::from(greenwald_khanna::quantile(stream.into(), list, phi.into()))
}

// p = ⌊2εn⌋. Refused: SLOTS, DAMAGED.
#[unsafe(no_mangle)]
pub extern "C" fn stelo_stream_p(stream: StreamWords, list: &[[u32; 3]]) -> Number
    ensures { result ≡ flat_answer (told_p (stream_of stream) (entries_of list.now)) }
{
    Number::from(greenwald_khanna::p(stream.into(), list))
}

// How many observations were accepted. Refused: SLOTS, DAMAGED.
#[unsafe(no_mangle)]
pub extern "C" fn stelo_stream_n(stream: StreamWords, list: &[[u32; 3]]) -> Number
    ensures { result ≡ flat_answer (told_n (stream_of stream) (entries_of list.now)) }
{
    Number::from(greenwald_khanna::n(stream.into(), list))
}

// How many entries are held. Refused: SLOTS, DAMAGED.
#[unsafe(no_mangle)]
pub extern "C" fn stelo_stream_s(stream: StreamWords, list: &[[u32; 3]]) -> Number
    ensures { result ≡ flat_answer (told_s (stream_of stream) (entries_of list.now)) }
{
    Number::from(greenwald_khanna::s(stream.into(), list))
}

// The theorems about the definitions: the crate is not proved unless each of them is.
pub fn promises()
    ensures { Promises }
{}
