// The histogram's state and answers. Words that fit none are read as a state that is never sound, whatever is lent: the core refuses it, after
// SLOTS, as DAMAGED.
// C reads these structs, so a refusal is a number in them, and what there may not be stands behind a flag.
#![tactic(auto)]

ghost use Rattle.std.specs.Prelude.{◌≡◌};
ghost use Rattle.histogram_words.specs.Promises.{Promises};
ghost use Rattle.histogram_words.specs.Histograms.{histogram_of, words_of, bound_of, flat_inserted, flat_summed};

use histogram::{Bound, Histogram};
use refusal::Refusal;
use words::{answered, flag_fits};

// A histogram's state: the count, 1 if there is a sum else 0, the sum.
#[repr(C)]
#[derive(Clone, Copy, Default)]
pub struct HistogramWords {
    pub count: u64,
    pub has_sum: u64,
    pub sum: u64,
}

// A histogram, or the refusal's number.
#[repr(C)]
#[derive(Clone, Copy)]
pub struct HistogramAnswer {
    pub refusal: u32,
    pub histogram: HistogramWords,
}

// A bound that is asked for: +Inf if `infinite` is not 0, whatever `value` says.
#[repr(C)]
#[derive(Clone, Copy)]
pub struct BoundWords {
    pub infinite: u32,
    pub value: u32,
}

// The sum, if there is one.
#[repr(C)]
#[derive(Clone, Copy)]
pub struct SumAnswer {
    pub refusal: u32,
    pub has_sum: u32,
    pub sum: u64,
}

// A part of the lent counts.
#[repr(C)]
#[derive(Clone, Copy)]
pub struct Part {
    pub refusal: u32,
    pub start: usize,
    pub length: usize,
}

// The state of the words. Those of no state, where the count has more than 32 bits or the flag does not fit the sum, give a count past the limit.
impl From<HistogramWords> for Histogram {
    ghost from_gives = { λ w h. h ≡ histogram_of w };

    fn from(w: HistogramWords) -> Histogram {
        match u32::try_from(w.count) {
            Ok(count) if flag_fits(w.has_sum, w.sum == 0) => Histogram {
                count,
                sum: (w.has_sum == 1).then_some(w.sum),
            },
            _ => Histogram {
                count: u32::MAX,
                sum: None,
            },
        }
    }
}

// The words of a state: a flag of 0, and 0, where there is no sum.
impl From<Histogram> for HistogramWords {
    ghost from_gives = { λ h w. w ≡ words_of h };

    fn from(h: Histogram) -> HistogramWords {
        HistogramWords {
            count: u64::from(h.count),
            has_sum: u64::from(h.sum.is_some()),
            sum: h.sum.unwrap_or(0),
        }
    }
}

// The bound of the words.
impl From<BoundWords> for Bound {
    ghost from_gives = { λ w b. b ≡ bound_of w };

    fn from(w: BoundWords) -> Bound {
        if w.infinite == 0 {
            Bound::Finite(w.value)
        } else {
            Bound::PosInf
        }
    }
}

impl HistogramAnswer {
    // What opening or an insert answers: the state `given` where it is refused.
    pub fn new(answer: Result<Histogram, Refusal>, given: HistogramWords) -> HistogramAnswer
        ensures { result ≡ flat_inserted given answer }
    {
        let (refusal, histogram) = answered(answer.map(HistogramWords::from), given);
        HistogramAnswer { refusal, histogram }
    }
}

// What `sum` answers.
impl From<Result<Option<u64>, Refusal>> for SumAnswer {
    ghost from_gives = { λ answer s. s ≡ flat_summed answer };

    fn from(answer: Result<Option<u64>, Refusal>) -> SumAnswer {
        let (refusal, sum) = answered(answer, None);
        SumAnswer {
            refusal,
            has_sum: u32::from(sum.is_some()),
            sum: sum.unwrap_or(0),
        }
    }
}

// The theorems about the definitions: the crate is not proved unless each of them is.
pub fn promises()
    ensures { Promises }
{}
