// What the calls rest on: the test of soundness, what every call asks first, and the record with one observation more.
ghost use Rattle.std.specs.Prelude.{◌≡◌, suc, ◌≤◌, ◌<◌, length, MatchResult};
ghost use Rattle.histogram_steps.specs.Bounds.{allowed};
ghost use Rattle.histogram_steps.specs.State.{observations, largest, taken};
ghost use Rattle.histogram_steps.specs.Sound.{SumFits, sum_sound, sound};
ghost use Rattle.histogram_steps.specs.Standing.{standing};

use crate::Histogram;
use histogram_rows::counts::Bins;
use histogram_rows::{bounds, counts};
use refusal::Refusal;

// Whether the bounds pass the rules of opening: 1 to 1,024 of them, never falling.
fn allowed(bounds: &[u32]) -> bool
    ensures { result ≡ allowed bounds.now }
{
    1 <= bounds.len() && bounds.len() <= Histogram::BOUNDS && bounds::rising(bounds)
}

impl Histogram {
    // Whether the sum fits the count: none exactly at 0, else at most the largest observation for each.
    fn sum_sound(self) -> bool
        ensures { result ≡ sum_sound self.sum self.count }
    {
        match self.sum {
            None => self.count == 0,
            Some(x) => 1 <= self.count && x <= u64::from(self.count) * Histogram::LARGEST,
        }
    }

    // Whether the state is sound.
    fn sound(self, bounds: &[u32], counts: &[u32]) -> bool
        requires { length counts.now ≡ suc (length bounds.now) }
        ensures { result ≡ sound self bounds.now counts.now }
    {
        allowed(bounds)
            && self.count <= Histogram::OBSERVATIONS
            && counts::total(counts) == u64::from(self.count)
            && self.sum_sound()
    }

    // What every call asks first: that the counts fit the bounds, and that the state is sound.
    pub fn standing(self, bounds: &[u32], counts: &[u32]) -> Result<(), Refusal>
        ensures { result ≡ standing self bounds.now counts.now }
    {
        if counts.len() != bounds.len() + 1 {
            return Err(Refusal::Slots);
        }
        if !self.sound(bounds, counts) {
            return Err(Refusal::Damaged);
        }
        Ok(())
    }

    // The bins that may be asked where no refusal stands.
    pub fn over<'b, 'c>(self, bounds: &'b [u32], counts: &'c [u32]) -> Result<Bins<'b, 'c>, Refusal>
        ensures { MatchResult result
            (λ bins. (standing self bounds.now counts.now ≡ Ok tt) × (bins.bounds.now ≡ bounds.now) × (bins.counts.now ≡ counts.now))
            (λ why. standing self bounds.now counts.now ≡ Err why) }
    {
        self.standing(bounds, counts)?;
        Ok(Bins { bounds, counts })
    }

    // The record with one observation more.
    pub fn taken(self, v: u64) -> Histogram
        requires { (self.count < observations) × SumFits self.sum self.count × (v ≤ largest) }
        ensures { result ≡ taken self v }
    {
        let sum = match self.sum {
            None => v,
            Some(x) => x + v,
        };
        Histogram {
            count: self.count + 1,
            sum: Some(sum),
        }
    }
}
