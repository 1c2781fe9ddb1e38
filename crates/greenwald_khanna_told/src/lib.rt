// What a stream tells of itself where it is sound: p, how many observations were accepted, how many entries are held.
// `greenwald_khanna` passes the calls on, and a quantile answers as they do.
#![tactic(auto)]

ghost use Rattle.std.specs.Prelude.{◌≡◌, map};
ghost use Rattle.greenwald_khanna_told.specs.Answers.{told, told_p, told_n, told_s};

use entries::Slot;
use greenwald_khanna_steps::Stream;
use refusal::Refusal;

// x, which is a number of the stream, where the stream is sound.
fn tell<T: Slot>(stream: Stream, list: &[T], x: u32) -> Result<u32, Refusal>
    ensures { result ≡ told stream (map T.entry list.now) x }
{
    stream.check(list)?;
    Ok(x)
}

// p = ⌊2εn⌋. Refused: SLOTS, DAMAGED.
pub fn p<T: Slot>(stream: Stream, list: &[T]) -> Result<u32, Refusal>
    ensures { result ≡ told_p stream (map T.entry list.now) }
{
    tell(stream, list, products::p(stream.epsilon, stream.n))
}

// How many observations were accepted. Refused: SLOTS, DAMAGED.
pub fn n<T: Slot>(stream: Stream, list: &[T]) -> Result<u32, Refusal>
    ensures { result ≡ told_n stream (map T.entry list.now) }
{
    tell(stream, list, stream.n)
}

// How many entries are held. Refused: SLOTS, DAMAGED.
pub fn s<T: Slot>(stream: Stream, list: &[T]) -> Result<u32, Refusal>
    ensures { result ≡ told_s stream (map T.entry list.now) }
{
    tell(stream, list, stream.held)
}
