// The CKMS's state, its opening, and the steps of its calls: the test of every call but opening, and an insert once its tests are passed.
// The lent lists stay arguments, as in the calls that pass them on.
#![tactic(auto)]

ghost use Rattle.std.specs.Prelude.{◌≡◌};
ghost use Rattle.entries.specs.Entry.{entries_of};
ghost use Rattle.ckms_steps.specs.Opening.{OpenPost};
ghost use Rattle.ckms_steps.specs.State.{block};

use ckms_store_steps::Store;
use fraction::Fraction;
use mean::Mean;
use refusal::Refusal;

mod record;
mod steps;

// The store's words stand singly, since its block size is always the same: a store within would bring one that has to be tested.
// A CKMS's own words: those of the store within, the insert counter, and the last value and the cumulative moving average, while there are any.
#[derive(Clone, Copy)]
pub struct CKMS {
    pub error: Fraction,
    pub n: u32,
    pub held: u32,
    pub blocks: u32,
    pub inserts: u32,
    pub last_in: Option<u32>,
    pub cma: Option<Mean>,
}

impl CKMS {
    // The block size of the store within.
    pub const BLOCK: u32 = 2048;

    // The block size as a function: its contract ties the constant to the definition.
    pub fn block() -> u32
        ensures { result ≡ block }
    {
        CKMS::BLOCK
    }

    // A fresh CKMS over the lent lists, whose places become zero. Refused: SLOTS, EPSILON.
    pub fn open(error: Fraction, rows: &mut [[u32; 3]], lens: &mut [u32]) -> Result<CKMS, Refusal>
        ensures { OpenPost error (entries_of rows.old) lens.old result (entries_of rows.new) lens.new }
    {
        Store::open(error, CKMS::BLOCK, rows, lens)?;
        Ok(CKMS {
            error,
            n: 0,
            held: 0,
            blocks: 0,
            inserts: 0,
            last_in: None,
            cma: None,
        })
    }
}
