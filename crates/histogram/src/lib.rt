// The histogram: how many observations fell into each of the bins that the caller's bounds cut, and their sum.
// Bounds and counts are lent; nothing in a state is trusted, so every call tests what it is given.
// The lent lists stay arguments beside the state, as README's calls and C lend them.
#![tactic(auto)]

ghost use Rattle.std.specs.Prelude.{◌≡◌, [], MatchResult};
ghost use Rattle.refusal.specs.Number.{number_of};
ghost use Rattle.histogram.specs.Answers.{bins_answer, bins_number};
ghost use Rattle.histogram.specs.Posts.{InsertPost};
ghost use Rattle.histogram.specs.Promises.{Promises};

use histogram_rows::counts;
use refusal::Refusal;

// The upper bound of a bin, or a bound that is asked for.
pub use histogram_rows::Bound;

// What a histogram is beside its bounds and counts.
pub use histogram_steps::Histogram;

// What a histogram tells.
pub use histogram_told::{count, sum, total_above, total_below, total_between};

// One observation more, or why not.
pub fn insert(
    histogram: Histogram,
    bounds: &[u32],
    counts: &mut [u32],
    v: u32,
) -> Result<Histogram, Refusal>
    ensures { InsertPost histogram bounds.now counts.old v result counts.new }
{
    histogram.standing(bounds, counts)?;
    if Histogram::OBSERVATIONS <= histogram.count {
        return Err(Refusal::Count);
    }
    counts::raise(bounds, counts, v);
    Ok(histogram.taken(u64::from(v)))
}

// The counts of those bins, as a part of the lent counts, or why not.
pub fn part<'a>(
    histogram: Histogram,
    bounds: &[u32],
    counts: &'a [u32],
    lower: Bound,
    upper: Bound,
) -> Result<&'a [u32], Refusal>
    ensures { MatchResult result
        (λ part. (bins_number histogram bounds.now counts.now ≡ 0) × (part.now ≡ bins_answer histogram bounds.now counts.now lower upper))
        (λ why. (bins_number histogram bounds.now counts.now ≡ number_of why) × (bins_answer histogram bounds.now counts.now lower upper ≡ [])) }
{
    let bins = histogram.over(bounds, counts)?;
    Ok(bins.between(lower, upper))
}

// The same part; an empty one for a refusal. This call and the next stay beside `part`, since document 01 names them: a view, and its sister.
pub fn bins<'a>(
    histogram: Histogram,
    bounds: &[u32],
    counts: &'a [u32],
    lower: Bound,
    upper: Bound,
) -> &'a [u32]
    ensures { result.now ≡ bins_answer histogram bounds.now counts.now lower upper }
{
    part(histogram, bounds, counts, lower, upper).unwrap_or(&counts[..0])
}

// Why `bins` is refused: the number, or 0.
pub fn bins_refusal(histogram: Histogram, bounds: &[u32], counts: &[u32]) -> u32
    ensures { result ≡ bins_number histogram bounds.now counts.now }
{
    match histogram.standing(bounds, counts) {
        Ok(()) => 0,
        Err(why) => why.number(),
    }
}

// The theorems about the definitions: the crate is not proved unless each of them is.
pub fn promises()
    ensures { Promises }
{}
