// What a histogram tells: its count, its sum, and the totals between bounds. Refused: SLOTS, DAMAGED. `histogram` passes the calls on.
// The lent lists stay arguments, as in the calls that pass them on.
#![tactic(auto)]

ghost use Rattle.std.specs.Prelude.{◌≡◌};
ghost use Rattle.histogram_told.specs.Answers.{count_answer, sum_answer, below_answer, above_answer, between_answer};

use histogram_rows::Bound;
use histogram_steps::Histogram;
use refusal::Refusal;

// How many observations were taken.
pub fn count(histogram: Histogram, bounds: &[u32], counts: &[u32]) -> Result<u32, Refusal>
    ensures { result ≡ count_answer histogram bounds.now counts.now }
{
    histogram.standing(bounds, counts)?;
    Ok(histogram.count)
}

// Their sum; none where there are none.
pub fn sum(histogram: Histogram, bounds: &[u32], counts: &[u32]) -> Result<Option<u64>, Refusal>
    ensures { result ≡ sum_answer histogram bounds.now counts.now }
{
    histogram.standing(bounds, counts)?;
    Ok(histogram.sum)
}

// How many are in bins with bound ≤ upper.
pub fn total_below(
    histogram: Histogram,
    bounds: &[u32],
    counts: &[u32],
    upper: Bound,
) -> Result<u32, Refusal>
    ensures { result ≡ below_answer histogram bounds.now counts.now upper }
{
    let bins = histogram.over(bounds, counts)?;
    Ok(bins.total_below(upper) as u32)
}

// How many are in bins with bound > lower.
pub fn total_above(
    histogram: Histogram,
    bounds: &[u32],
    counts: &[u32],
    lower: Bound,
) -> Result<u32, Refusal>
    ensures { result ≡ above_answer histogram bounds.now counts.now lower }
{
    let bins = histogram.over(bounds, counts)?;
    Ok(bins.total_above(lower) as u32)
}

// How many are in bins with lower < bound ≤ upper.
pub fn total_between(
    histogram: Histogram,
    bounds: &[u32],
    counts: &[u32],
    lower: Bound,
    upper: Bound,
) -> Result<u32, Refusal>
    ensures { result ≡ between_answer histogram bounds.now counts.now lower upper }
{
    let bins = histogram.over(bounds, counts)?;
    Ok(bins.total_between(lower, upper) as u32)
}
