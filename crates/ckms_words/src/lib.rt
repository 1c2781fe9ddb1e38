// A CKMS's state as words, the way in and the way out. Words that fit none are read as a state that is never sound, whatever is lent: the core refuses it, after SLOTS, as DAMAGED.
// The mean is an f64 here: a NaN is then a value which the core can refuse. C reads this struct, so what there may not be stands behind a flag.
#![tactic(auto)]

ghost use Rattle.std.specs.Prelude.{◌≡◌, cond};
ghost use Rattle.ckms_words.specs.Promises.{Promises};
ghost use Rattle.ckms_words.specs.Ckmses.{plus_zero, narrow, misfit, narrowed, ckms_of, words_of};

use ckms_steps::CKMS;
use fraction::Fraction;
use mean::Mean;
use words::flag_fits;

// A CKMS's state: a flag says whether there is a last value, and another whether there is a mean.
#[repr(C)]
#[derive(Clone, Copy, Default)]
pub struct CkmsWords {
    pub num: u64,
    pub den: u64,
    pub n: u64,
    pub held: u64,
    pub blocks: u64,
    pub inserts: u64,
    pub has_last: u64,
    pub last: u64,
    pub has_mean: u64,
    pub mean: f64,
}

// Whether x is the zero whose bits are all 0: one over the other zero is below it.
fn is_plus_zero(x: f64) -> bool
    ensures { result ≡ plus_zero x }
{
    x == 0.0 && 0.0 < 1.0 / x
}

// The state of words that fit none: its error is not allowed.
pub fn misfit() -> CKMS
    ensures { result ≡ misfit }
{
    CKMS {
        error: Fraction { num: 0, den: 0 },
        n: 0,
        held: 0,
        blocks: 0,
        inserts: 0,
        last_in: None,
        cma: None,
    }
}

impl CkmsWords {
    // The state of the words, where each word that is a number of 32 bits is one. No TryFrom: beside a From the library has one, which can't fail.
    fn narrowed(self) -> Option<CKMS>
        ensures { result ≡ cond (narrow self) (Some (narrowed self)) None }
    {
        let last = u32::try_from(self.last).ok()?;
        Some(CKMS {
            error: Fraction {
                num: u32::try_from(self.num).ok()?,
                den: u32::try_from(self.den).ok()?,
            },
            n: u32::try_from(self.n).ok()?,
            held: u32::try_from(self.held).ok()?,
            blocks: u32::try_from(self.blocks).ok()?,
            inserts: u32::try_from(self.inserts).ok()?,
            last_in: (self.has_last == 1).then_some(last),
            cma: (self.has_mean == 1).then_some(Mean { value: self.mean }),
        })
    }
}

// The state of the words.
impl From<CkmsWords> for CKMS {
    ghost from_gives = { λ words ckms. ckms ≡ ckms_of words };

    fn from(words: CkmsWords) -> CKMS {
        if flag_fits(words.has_last, words.last == 0)
            && flag_fits(words.has_mean, is_plus_zero(words.mean))
        {
            return words.narrowed().unwrap_or(misfit());
        }
        misfit()
    }
}

// The words of a state: what there is not, is 0 behind a flag of 0.
impl From<CKMS> for CkmsWords {
    ghost from_gives = { λ ckms words. words ≡ words_of ckms };

    fn from(ckms: CKMS) -> CkmsWords {
        CkmsWords {
            num: u64::from(ckms.error.num),
            den: u64::from(ckms.error.den),
            n: u64::from(ckms.n),
            held: u64::from(ckms.held),
            blocks: u64::from(ckms.blocks),
            inserts: u64::from(ckms.inserts),
            has_last: u64::from(ckms.last_in.is_some()),
            last: u64::from(ckms.last_in.unwrap_or(0)),
            has_mean: u64::from(ckms.cma.is_some()),
            mean: ckms.cma.map_or(0.0, |mean| mean.value),
        }
    }
}

// The theorems about the definitions: the crate is not proved unless each of them is.
pub fn promises()
    ensures { Promises }
{}
