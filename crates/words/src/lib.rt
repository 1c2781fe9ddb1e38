// What the words of every module share: a fraction, an answer that is one number or a refusal, and a flag beside what it tells of.
// The states and answers are in stream_words, histogram_words, store_words, ckms_words and ckms_answer_words; the calls are in stream_c, histogram_c, store_c and ckms_c.
// C reads these structs, so a refusal is a number in them, beside what is answered, and what there may not be stands behind a flag.
// Each module has answer structs of its own, since the signature of an exported function takes no generic struct.
#![tactic(auto)]

ghost use Rattle.std.specs.Prelude.{◌≡◌};
ghost use Rattle.words.specs.Words.{fraction_of, ratio_of, answered, number_told, flag_fits};

use fraction::Fraction;
use refusal::Refusal;

// A fraction, for C: a struct of C's own, so that the ground's `Fraction` owes C no layout.
#[repr(C)]
#[derive(Clone, Copy)]
pub struct Ratio {
    pub num: u32,
    pub den: u32,
}

// What a call that tells one number answers.
#[repr(C)]
#[derive(Clone, Copy)]
pub struct Number {
    pub refusal: u32,
    pub value: u32,
}

impl From<Ratio> for Fraction {
    ghost from_gives = { λ ratio fraction. fraction ≡ fraction_of ratio };

    fn from(ratio: Ratio) -> Fraction {
        Fraction {
            num: ratio.num,
            den: ratio.den,
        }
    }
}

impl From<Fraction> for Ratio {
    ghost from_gives = { λ fraction ratio. ratio ≡ ratio_of fraction };

    fn from(fraction: Fraction) -> Ratio {
        Ratio {
            num: fraction.num,
            den: fraction.den,
        }
    }
}

// What a call that gives a state answers, in words: the refusal's number or 0, and the state, which is `given` where the call is refused.
pub fn answered<W: Copy>(answer: Result<W, Refusal>, given: W) -> (u32, W)
    ensures { result ≡ answered given answer }
{
    match answer {
        Ok(state) => (0, state),
        Err(why) => (why.number(), given),
    }
}

// What a call that tells a number answers, in words.
impl From<Result<u32, Refusal>> for Number {
    ghost from_gives = { λ answer n. n ≡ number_told answer };

    fn from(answer: Result<u32, Refusal>) -> Number {
        let (refusal, value) = answered(answer, 0);
        Number { refusal, value }
    }
}

// Whether a flag fits what stands beside it: 1, or 0 with nothing there.
pub fn flag_fits(flag: u64, nothing: bool) -> bool
    ensures { result ≡ flag_fits flag nothing }
{
    flag == 1 || (flag == 0 && nothing)
}
