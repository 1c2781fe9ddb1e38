// The boundary to C and Rust: the calls on a CKMS as exported functions. Lists are lent in place, states are structs of plain words by value,
// and an answer is a struct of numbers: the refusal's number or 0, and what the core answered. Every contract hands on the core's.
#![tactic(auto)]

ghost use Rattle.std.specs.Prelude.{◌≡◌};
ghost use Rattle.entries.specs.Entry.{entries_of};
ghost use Rattle.ckms_told.specs.Answers.{count_of, last_of, cma_of, error_of};
ghost use Rattle.ckms.specs.Answers.{queried};
ghost use Rattle.words.specs.Words.{fraction_of};
ghost use Rattle.store_words.specs.Stores.{flat_ranked};
ghost use Rattle.ckms_words.specs.Ckmses.{ckms_of};
ghost use Rattle.ckms_answer_words.specs.CkmsAnswers.{flat_counted, flat_last, flat_average, flat_error};
ghost use Rattle.ckms_c.specs.Posts.{CkmsOpenPost, CkmsInsertPost};
ghost use Rattle.ckms_c.specs.Promises.{Promises};

use ckms::CKMS;
use ckms_answer_words::{CkmsAnswer, ErrorAnswer, LastAnswer, MeanAnswer};
use ckms_words::CkmsWords;
use store_words::RankedAnswer;
use words::{Number, Ratio};

// A fresh CKMS. Refused: SLOTS, EPSILON.
#[unsafe(no_mangle)]
pub extern "C" fn stelo_ckms_open(
    error: Ratio,
    list: &mut [[u32; 3]],
    blocks: &mut [u32],
) -> CkmsAnswer
    ensures { CkmsOpenPost error (entries_of list.old) blocks.old result (entries_of list.new) blocks.new }
{
    CkmsAnswer::new(CKMS::open(error.into(), list, blocks), CkmsWords::default())
}

// One observation more. Refused: SLOTS, DAMAGED, COUNT, FULL.
#[unsafe(no_mangle)]
pub extern "C" fn stelo_ckms_insert(
    ckms: CkmsWords,
    list: &mut [[u32; 3]],
    blocks: &mut [u32],
    v: u32,
) -> CkmsAnswer
    ensures { CkmsInsertPost ckms (entries_of list.old) blocks.old v result (entries_of list.new) blocks.new }
{
    CkmsAnswer::new(ckms::insert(CKMS::from(ckms), list, blocks, v), ckms)
}

// The rank and the value at q. Refused: SLOTS, DAMAGED, PHI, EMPTY.
#[unsafe(no_mangle)]
pub extern "C" fn stelo_ckms_query(
    ckms: CkmsWords,
    list: &[[u32; 3]],
    blocks: &[u32],
    q: Ratio,
) -> RankedAnswer
    ensures { result ≡ flat_ranked (queried (ckms_of ckms) (entries_of list.now) blocks.now (fraction_of q)) }
{
    RankedAnswer::from(ckms::query(CKMS::from(ckms), list, blocks, q.into()))
}

// How many observations were accepted. Refused: SLOTS, DAMAGED.
#[unsafe(no_mangle)]
pub extern "C" fn stelo_ckms_count(ckms: CkmsWords, list: &[[u32; 3]], blocks: &[u32]) -> Number
    ensures { result ≡ flat_counted (count_of (ckms_of ckms) (entries_of list.now) blocks.now) }
{
    Number::from(ckms::count(CKMS::from(ckms), list, blocks))
}

// The observation accepted last. Refused: SLOTS, DAMAGED.
#[unsafe(no_mangle)]
pub extern "C" fn stelo_ckms_last(ckms: CkmsWords, list: &[[u32; 3]], blocks: &[u32]) -> LastAnswer
    ensures { result ≡ flat_last (last_of (ckms_of ckms) (entries_of list.now) blocks.now) }
{
    LastAnswer::from(ckms::last(CKMS::from(ckms), list, blocks))
}

// The running mean. Refused: SLOTS, DAMAGED.
#[unsafe(no_mangle)]
pub extern "C" fn stelo_ckms_cma(ckms: CkmsWords, list: &[[u32; 3]], blocks: &[u32]) -> MeanAnswer
    ensures { result ≡ flat_average (cma_of (ckms_of ckms) (entries_of list.now) blocks.now) }
{
    MeanAnswer::from(ckms::cma(CKMS::from(ckms), list, blocks))
}

// The error as opened, not reduced. Refused: SLOTS, DAMAGED.
#[unsafe(no_mangle)]
pub extern "C" fn stelo_ckms_error_bound(
    ckms: CkmsWords,
    list: &[[u32; 3]],
    blocks: &[u32],
) -> ErrorAnswer
    ensures { result ≡ flat_error (error_of (ckms_of ckms) (entries_of list.now) blocks.now) }
{
    ErrorAnswer::from(ckms::error_bound(CKMS::from(ckms), list, blocks))
}

// The theorems about the definitions: the crate is not proved unless each of them is.
pub fn promises()
    ensures { Promises }
{}
