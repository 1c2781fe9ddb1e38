// What a CKMS has beside its store: the insert counter, the last value and the running mean.
ghost use Rattle.std.specs.Prelude.{◌≡◌, ◌<◌};
ghost use Rattle.ckms_steps.specs.State.{modulus, count_on, last_sound, cma_sound, record_sound};
ghost use Rattle.ckms_steps.specs.Steps.{CmaPost};

use crate::CKMS;
use fraction::Fraction;
use mean::Mean;

// How many inserts lie between two compressions: max(1, ⌊1/(2·error)⌋).
fn insert_threshold(error: Fraction) -> u32
    ensures { result ≡ modulus error }
{
    products::period(error).max(1)
}

// The insert counter after one insert more; at 0 the store is compressed.
pub(crate) fn count_on(error: Fraction, inserts: u32) -> u32
    requires { inserts < modulus error }
    ensures { result ≡ count_on error inserts }
{
    (inserts + 1) % insert_threshold(error)
}

// The mean with v as the last of n values.
pub(crate) fn cma_after(cma: Option<Mean>, v: u32, n: u32) -> Option<Mean>
    ensures { CmaPost cma v n result }
{
    Some(cma.map_or_else(|| Mean::first(v), |m| m.next(v, n)))
}

// Whether there is a last value exactly when something was accepted.
fn last_sound(n: u32, last_in: Option<u32>) -> bool
    ensures { result ≡ last_sound n last_in }
{
    last_in.is_none() == (n == 0)
}

// Whether there is a mean exactly when something was accepted, and a finite one.
fn cma_sound(n: u32, cma: Option<Mean>) -> bool
    ensures { result ≡ cma_sound n cma }
{
    cma.map_or(n == 0, |m| 0 < n && mean::is_finite(m.value))
}

impl CKMS {
    // Whether what a CKMS has beside its store is sound.
    pub fn record_sound(self) -> bool
        ensures { result ≡ record_sound self }
    {
        self.inserts < insert_threshold(self.error)
            && last_sound(self.n, self.last_in)
            && cma_sound(self.n, self.cma)
    }
}
