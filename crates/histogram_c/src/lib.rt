// The boundary to C and Rust: the histogram's calls as exported functions. Lists are lent in place, states are structs of plain words by value,
// and an answer is a struct of numbers: the refusal's number or 0, and what the core answered. Every contract hands on the core's.
#![tactic(auto)]

ghost use Rattle.std.specs.Prelude.{◌≡◌};
ghost use Rattle.histogram_told.specs.Answers.{count_answer, sum_answer, below_answer, above_answer, between_answer};
ghost use Rattle.histogram_words.specs.Histograms.{histogram_of, bound_of, flat_counted, flat_summed};
ghost use Rattle.histogram_c.specs.Posts.{HistogramOpenPost, HistogramInsertPost, BinsPost};
ghost use Rattle.histogram_c.specs.Promises.{Promises};

use histogram::{Bound, Histogram};
use histogram_rows::bounds;
use histogram_words::{BoundWords, HistogramAnswer, HistogramWords, Part, SumAnswer};
use words::Number;

// A fresh histogram. Refused: BOUNDS-EMPTY, BOUNDS-MANY, BOUNDS-ORDER, SLOTS.
#[unsafe(no_mangle)]
pub extern "C" fn stelo_histogram_open(bounds: &[u32], counts: &mut [u32]) -> HistogramAnswer
    ensures { HistogramOpenPost bounds.now counts.old result counts.new }
{
    HistogramAnswer::new(Histogram::open(bounds, counts), HistogramWords::default())
}

// One observation more. Refused: SLOTS, DAMAGED, COUNT.
#[unsafe(no_mangle)]
pub extern "C" fn stelo_histogram_insert(
    histogram: HistogramWords,
    bounds: &[u32],
    counts: &mut [u32],
    v: u32,
) -> HistogramAnswer
    ensures { HistogramInsertPost histogram bounds.now counts.old v result counts.new }
{
    let answer = histogram::insert(histogram.into(), bounds, counts, v);
    HistogramAnswer::new(answer, histogram)
}

// How many observations were accepted. Refused: SLOTS, DAMAGED.
#[unsafe(no_mangle)]
pub extern "C" fn stelo_histogram_count(
    histogram: HistogramWords,
    bounds: &[u32],
    counts: &[u32],
) -> Number
    ensures { result ≡ flat_counted (count_answer (histogram_of histogram) bounds.now counts.now) }
{
    histogram::count(histogram.into(), bounds, counts).into()
}

// Their sum. Refused: SLOTS, DAMAGED.
#[unsafe(no_mangle)]
pub extern "C" fn stelo_histogram_sum(
    histogram: HistogramWords,
    bounds: &[u32],
    counts: &[u32],
) -> SumAnswer
    ensures { result ≡ flat_summed (sum_answer (histogram_of histogram) bounds.now counts.now) }
{
    histogram::sum(histogram.into(), bounds, counts).into()
}

// How many are in bins with bound ≤ upper. Refused: SLOTS, DAMAGED.
#[unsafe(no_mangle)]
pub extern "C" fn stelo_histogram_total_below(
    histogram: HistogramWords,
    bounds: &[u32],
    counts: &[u32],
    upper: BoundWords,
) -> Number
    ensures { result ≡ flat_counted (below_answer (histogram_of histogram) bounds.now counts.now (bound_of upper)) }
{
    histogram::total_below(histogram.into(), bounds, counts, upper.into()).into()
}

// How many are in bins with bound > lower. Refused: SLOTS, DAMAGED.
#[unsafe(no_mangle)]
pub extern "C" fn stelo_histogram_total_above(
    histogram: HistogramWords,
    bounds: &[u32],
    counts: &[u32],
    lower: BoundWords,
) -> Number
    ensures { result ≡ flat_counted (above_answer (histogram_of histogram) bounds.now counts.now (bound_of lower)) }
{
    histogram::total_above(histogram.into(), bounds, counts, lower.into()).into()
}

// How many are in bins with lower < bound ≤ upper. Refused: SLOTS, DAMAGED.
#[unsafe(no_mangle)]
pub extern "C" fn stelo_histogram_total_between(
    histogram: HistogramWords,
    bounds: &[u32],
    counts: &[u32],
    lower: BoundWords,
    upper: BoundWords,
) -> Number
    ensures { result ≡ flat_counted (between_answer (histogram_of histogram) bounds.now counts.now (bound_of lower) (bound_of upper)) }
{
    histogram::total_between(histogram.into(), bounds, counts, lower.into(), upper.into()).into()
}

// Where the counts of those bins stand among the lent counts. Refused: SLOTS, DAMAGED.
#[unsafe(no_mangle)]
pub extern "C" fn stelo_histogram_bins(
    histogram: HistogramWords,
    bounds: &[u32],
    counts: &[u32],
    lower: BoundWords,
    upper: BoundWords,
) -> Part
    ensures { BinsPost (histogram_of histogram) bounds.now counts.now (bound_of lower) (bound_of upper) result }
{
    part(histogram.into(), bounds, counts, lower.into(), upper.into())
}

// The part begins behind the bins with bound ≤ lower.
fn part(histogram: Histogram, bounds: &[u32], counts: &[u32], lower: Bound, upper: Bound) -> Part
    ensures { BinsPost histogram bounds.now counts.now lower upper result }
{
    match histogram::part(histogram, bounds, counts, lower, upper) {
        Ok(bins) => Part {
            refusal: 0,
            start: bounds::ending(bounds, lower),
            length: bins.len(),
        },
        Err(why) => Part {
            refusal: why.number(),
            start: 0,
            length: 0,
        },
    }
}

// The theorems about the definitions: the crate is not proved unless each of them is.
pub fn promises()
    ensures { Promises }
{}
