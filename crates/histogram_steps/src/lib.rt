// What the histogram's calls rest on: its state beside the lent bounds and counts, the limits, and opening.
// Nothing in a state is trusted: `standing` tests what a call is given.
// The lent lists stay arguments, as in the calls that pass them on.
#![tactic(auto)]

ghost use Rattle.std.specs.Prelude.{◌≡◌};
ghost use Rattle.histogram_steps.specs.Bounds.{bounds};
ghost use Rattle.histogram_steps.specs.Opening.{OpenPost};
ghost use Rattle.histogram_steps.specs.State.{observations};

use histogram_rows::bounds;
use refusal::Refusal;

mod steps;

// What a histogram is beside its bounds and counts: how many observations there are, and their sum, none exactly while there are none.
#[derive(Clone, Copy, Debug, PartialEq, Eq)]
pub struct Histogram {
    pub count: u32,
    pub sum: Option<u64>,
}

impl Histogram {
    // The most bounds.
    pub const BOUNDS: usize = 1024;

    // The most observations.
    pub const OBSERVATIONS: u32 = 1000000000;

    // The largest observation.
    pub(crate) const LARGEST: u64 = 4294967295;

    // The same limits as functions: their contracts tie the constants to the definitions.
    pub fn bounds() -> usize
        ensures { result ≡ bounds }
    {
        Histogram::BOUNDS
    }

    pub fn observations() -> u32
        ensures { result ≡ observations }
    {
        Histogram::OBSERVATIONS
    }

    // A fresh histogram over the lent bounds, with every count at zero; or why not.
    pub fn open(bounds: &[u32], counts: &mut [u32]) -> Result<Histogram, Refusal>
        ensures { OpenPost bounds.now counts.old result counts.new }
    {
        if bounds.is_empty() {
            return Err(Refusal::BoundsEmpty);
        }
        if Histogram::BOUNDS < bounds.len() {
            return Err(Refusal::BoundsMany);
        }
        if !bounds::rising(bounds) {
            return Err(Refusal::BoundsOrder);
        }
        if counts.len() != bounds.len() + 1 {
            return Err(Refusal::Slots);
        }
        counts.fill(0);
        Ok(Histogram {
            count: 0,
            sum: None,
        })
    }
}
