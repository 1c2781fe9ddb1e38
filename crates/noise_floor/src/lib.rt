// The noise floor of a whole scan, under demand 3: a stream is opened, every observation inserted, a refused one skipped, and a quantile asked.
#![tactic(auto)]

ghost use Rattle.std.specs.Prelude.{◌≡◌, map};
ghost use Rattle.noise_floor.specs.Demand3.{given, run};
ghost use Rattle.noise_floor.specs.Floor.{FloorPost};
ghost use Rattle.noise_floor.specs.Promises.{Promises};

use entries::Slot;
use fraction::Fraction;
use greenwald_khanna::Stream;
use refusal::Refusal;

// A whole scan: a stream is opened, every observation inserted, a refused one skipped, and the φ-quantile is the floor.
// Its contract says demand 3 of this answer and the observations that were accepted.
pub fn floor<T: Slot>(
    epsilon: Fraction,
    list: &mut [T],
    observations: &[u32],
    phi: Fraction,
) -> Result<u32, Refusal>
    ensures { FloorPost epsilon (map T.entry list.old) observations.now phi result (map T.entry list.new) }
{
    let opened = Stream::open(epsilon, list)?;
    let scanned = insert_all(opened, list, observations);
    greenwald_khanna::quantile(scanned, list, phi)
}

// All observations, one after another; a refused one changes nothing.
fn insert_all<T: Slot>(first: Stream, list: &mut [T], observations: &[u32]) -> Stream
    ensures { given result (map T.entry list.new) ≡ run (given first (map T.entry list.old)) observations.now }
{
    let mut stream = first;
    for v in observations {
        stream = greenwald_khanna::insert(stream, list, *v).unwrap_or(stream);
    }
    stream
}

// The theorems about the definitions are in proofs/. This contract states them, so that none can go missing.
pub fn promises()
    ensures { Promises }
{}
