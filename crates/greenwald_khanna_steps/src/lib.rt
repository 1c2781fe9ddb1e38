// What the Greenwald-Khanna stream is: its state over a lent list of rows [v, g, delta] or of entries, its limits, its opening,
// when it is sound, and the steps of its calls.
#![tactic(auto)]

ghost use Rattle.std.specs.Prelude.{◌≡◌, map};
ghost use Rattle.greenwald_khanna_steps.specs.Limits.{slots, observations, denominator, slots_ok};
ghost use Rattle.greenwald_khanna_steps.specs.Opening.{OpenPost};
ghost use Rattle.greenwald_khanna_steps.specs.Sound.{checked};

use entries::{Entry, Slot};
use fraction::Fraction;
use refusal::Refusal;

mod steps;

// A stream: its error fraction, how many observations it has taken, and how many entries of the lent list it holds.
#[derive(Clone, Copy)]
pub struct Stream {
    pub epsilon: Fraction,
    pub n: u32,
    pub held: u32,
}

impl Stream {
    // The most slots that may be lent.
    pub const SLOTS: usize = 4096;

    // The most observations.
    pub const OBSERVATIONS: u32 = 1000000000;

    // The largest denominator of a fraction.
    pub const DENOMINATOR: u32 = 65536;

    // The limits as functions: their contracts tie the constants to the definitions.
    pub fn slots() -> usize
        ensures { result ≡ slots }
    {
        Stream::SLOTS
    }

    pub fn observations() -> u32
        ensures { result ≡ observations }
    {
        Stream::OBSERVATIONS
    }

    pub fn denominator() -> u32
        ensures { result ≡ denominator }
    {
        Stream::DENOMINATOR
    }

    // A fresh stream over the lent list, whose slots become zero. Refused: SLOTS, EPSILON.
    pub fn open<T: Slot>(epsilon: Fraction, list: &mut [T]) -> Result<Stream, Refusal>
        ensures { OpenPost epsilon (map T.entry list.old) result (map T.entry list.new) }
    {
        let slots = list.len();
        if !slots_ok(slots) {
            return Err(Refusal::Slots);
        }
        if !epsilon.is_epsilon() {
            return Err(Refusal::Epsilon);
        }
        room::clear(list, 0, slots, T::holding(Entry::default()));
        Ok(Stream {
            epsilon,
            n: 0,
            held: 0,
        })
    }

    // What every later call tests first: the lent list's length, then whether state and list are sound. Refused: SLOTS, DAMAGED.
    pub fn check<T: Slot>(self, list: &[T]) -> Result<(), Refusal>
        ensures { result ≡ checked self (map T.entry list.now) }
    {
        if !slots_ok(list.len()) {
            return Err(Refusal::Slots);
        }
        if !self.is_sound(list) {
            return Err(Refusal::Damaged);
        }
        Ok(())
    }
}

// Whether a lent list of so many slots is taken.
fn slots_ok(slots: usize) -> bool
    ensures { result ≡ slots_ok slots }
{
    1 <= slots && slots <= Stream::SLOTS
}
