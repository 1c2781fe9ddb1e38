// The Greenwald-Khanna stream over a lent list of rows [v, g, delta] or of entries, refusals included. Nothing in a state is trusted: every call tests the
// lent list's length, then whether state and list are sound.
// The lent list stays an argument beside the state, as README's calls and C lend it.
#![tactic(auto)]

ghost use Rattle.std.specs.Prelude.{map};
ghost use Rattle.greenwald_khanna.specs.Posts.{InsertPost, QuantilePost};
ghost use Rattle.greenwald_khanna.specs.Promises.{Promises};

use entries::Slot;
use fraction::Fraction;
use refusal::Refusal;

// The stream's type, with its limits and its opening.
pub use greenwald_khanna_steps::Stream;

// What a stream tells of itself.
pub use greenwald_khanna_told::{n, p, s};

// One observation more. Refused: SLOTS, DAMAGED, COUNT, FULL.
pub fn insert<T: Slot>(stream: Stream, list: &mut [T], v: u32) -> Result<Stream, Refusal>
    ensures { InsertPost stream (map T.entry list.old) v result (map T.entry list.new) }
{
    stream.check(list)?;
    if Stream::OBSERVATIONS <= stream.n {
        return Err(Refusal::Count);
    }
    if list.len() <= stream.held as usize {
        return Err(Refusal::Full);
    }
    Ok(stream.take(list, v))
}

// The φ-quantile. Refused: SLOTS, DAMAGED, PHI, EMPTY.
pub fn quantile<T: Slot>(stream: Stream, list: &[T], phi: Fraction) -> Result<u32, Refusal>
    ensures { QuantilePost stream (map T.entry list.now) phi result }
{
    stream.check(list)?;
    if !phi.is_phi() {
        return Err(Refusal::Phi);
    }
    if stream.held == 0 {
        return Err(Refusal::Empty);
    }
    let rank = products::floor_mul(phi, stream.n);
    Ok(stream.at_rank(list, rank))
}

// The theorems about the definitions are in proofs/. This contract states them, so that none can go missing.
pub fn promises()
    ensures { Promises }
{}
