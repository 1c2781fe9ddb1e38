// The counts of the bins: their total, and those of the bins that are asked for.
ghost use Rattle.std.specs.Prelude.{◌≡◌, ◌≤◌, ◌<◌, length};
ghost use Rattle.entries.specs.Total.{total};
ghost use Rattle.histogram_rows.specs.Bins.{Binned, counted, total_below, total_above, total_between, bins_between};
ghost use Rattle.histogram_rows.specs.Props.{Binned-prop};

use crate::{Bound, bounds};

// Lent bounds and counts: the bounds never fall, and there are a count for each and one more for +Inf.
#[derive(Clone, Copy)]
pub struct Bins<'b, 'c> {
    pub bounds: &'b [u32],
    pub counts: &'c [u32],
    pub ghost binned: { Binned bounds.now counts.now } by { Binned-prop bounds.now counts.now },
}

impl<'c> Bins<'_, 'c> {
    // What is in bins with bound ≤ upper: the first ones. It is no more than all.
    pub fn total_below(self, upper: Bound) -> u64
        ensures { (result ≡ total_below self.entry.bounds.now self.entry.counts.now upper) × (result ≤ total self.entry.counts.now) }
    {
        let end = bounds::ending(self.bounds, upper);
        total(&self.counts[..end])
    }

    // What is in bins with bound > lower: the last ones.
    pub fn total_above(self, lower: Bound) -> u64
        ensures { (result ≡ total_above self.entry.bounds.now self.entry.counts.now lower) × (result ≤ total self.entry.counts.now) }
    {
        let start = bounds::ending(self.bounds, lower);
        total(&self.counts[start..])
    }

    // The counts of the bins with lower < bound ≤ upper, as a part of the lent counts.
    pub fn between(self, lower: Bound, upper: Bound) -> &'c [u32]
        ensures { result.now ≡ bins_between self.entry.bounds.now self.entry.counts.now lower upper }
    {
        let start = bounds::ending(self.bounds, lower);
        let end = bounds::ending(self.bounds, upper);
        &self.counts[start..start.max(end)]
    }

    // What is in those bins.
    pub fn total_between(self, lower: Bound, upper: Bound) -> u64
        ensures { (result ≡ total_between self.entry.bounds.now self.entry.counts.now lower upper) × (result ≤ total self.entry.counts.now) }
    {
        total(self.between(lower, upper))
    }
}

// The sum of the counts. `entries::sum_g` sums the g of entries; here the list holds the numbers themselves.
pub fn total(counts: &[u32]) -> u64
    requires { length counts.now ≤ 65536 }
    ensures { result ≡ total counts.now }
{
    counts.iter().map(|c| u64::from(*c)).sum()
}

// One more in the bin of v. The counts are written here, and a struct that lent them so would have to hold its fact at every write.
pub fn raise(bounds: &[u32], counts: &mut [u32], v: u32)
    requires { Binned bounds.now counts.old × (total counts.old < 4294967295) }
    ensures { counts.new ≡ counted bounds.now counts.old v }
{
    let bin = bounds.partition_point(|b| *b < v);
    counts[bin] += 1;
}
