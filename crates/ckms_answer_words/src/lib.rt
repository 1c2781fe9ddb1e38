// What the calls on a CKMS answer, in words: the refusal's number or 0, and what the core answered.
// C reads these structs, so a refusal is a number in them, and what there may not be stands behind a flag.
#![tactic(auto)]

ghost use Rattle.std.specs.Prelude.{◌≡◌};
ghost use Rattle.ckms_answer_words.specs.Promises.{Promises};
ghost use Rattle.ckms_answer_words.specs.CkmsAnswers.{flat_inserted, flat_last, flat_average, flat_error};

use ckms::CKMS;
use ckms_words::CkmsWords;
use fraction::Fraction;
use mean::Mean;
use refusal::Refusal;
use words::Ratio;

// A CKMS, or the refusal's number.
#[repr(C)]
#[derive(Clone, Copy)]
pub struct CkmsAnswer {
    pub refusal: u32,
    pub ckms: CkmsWords,
}

// The last value, if there is one.
#[repr(C)]
#[derive(Clone, Copy)]
pub struct LastAnswer {
    pub refusal: u32,
    pub has_last: u32,
    pub last: u32,
}

// The mean, if there is one.
#[repr(C)]
#[derive(Clone, Copy)]
pub struct MeanAnswer {
    pub refusal: u32,
    pub has_mean: u32,
    pub mean: f64,
}

// The error as opened.
#[repr(C)]
#[derive(Clone, Copy)]
pub struct ErrorAnswer {
    pub refusal: u32,
    pub error: Ratio,
}

impl CkmsAnswer {
    // What a call that gives a CKMS answers: the state as it was given where the call is refused.
    pub fn new(answer: Result<CKMS, Refusal>, given: CkmsWords) -> CkmsAnswer
        ensures { result ≡ flat_inserted given answer }
    {
        let (refusal, ckms) = words::answered(answer.map(CkmsWords::from), given);
        CkmsAnswer { refusal, ckms }
    }
}

// What `last` answers.
impl From<Result<Option<u32>, Refusal>> for LastAnswer {
    ghost from_gives = { λ answer told. told ≡ flat_last answer };

    fn from(answer: Result<Option<u32>, Refusal>) -> LastAnswer {
        let (refusal, last) = words::answered(answer, None);
        LastAnswer {
            refusal,
            has_last: u32::from(last.is_some()),
            last: last.unwrap_or(0),
        }
    }
}

// What `cma` answers.
impl From<Result<Option<Mean>, Refusal>> for MeanAnswer {
    ghost from_gives = { λ answer told. told ≡ flat_average answer };

    fn from(answer: Result<Option<Mean>, Refusal>) -> MeanAnswer {
        let (refusal, cma) = words::answered(answer, None);
        MeanAnswer {
            refusal,
            has_mean: u32::from(cma.is_some()),
            mean: cma.map_or(0.0, |mean| mean.value),
        }
    }
}

// What `error_bound` answers.
impl From<Result<Fraction, Refusal>> for ErrorAnswer {
    ghost from_gives = { λ answer told. told ≡ flat_error answer };

    fn from(answer: Result<Fraction, Refusal>) -> ErrorAnswer {
        let (refusal, error) = words::answered(answer, Fraction { num: 0, den: 0 });
        ErrorAnswer {
            refusal,
            error: error.into(),
        }
    }
}

// The theorems about the definitions: the crate is not proved unless each of them is.
pub fn promises()
    ensures { Promises }
{}
