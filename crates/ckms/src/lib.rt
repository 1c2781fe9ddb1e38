// The CKMS: a store of block size 2,048, with an insert counter, the last value and the running mean.
// The lent lists stay arguments beside the state, as README's calls and C lend them.
#![tactic(auto)]

ghost use Rattle.std.specs.Prelude.{◌≡◌};
ghost use Rattle.entries.specs.Entry.{entries_of};
ghost use Rattle.ckms.specs.Answers.{queried};
ghost use Rattle.ckms.specs.Posts.{InsertPost};
ghost use Rattle.ckms.specs.Promises.{Promises};

use ckms_store::Store;
use fraction::Fraction;
use refusal::Refusal;

// The type, with its opening and what it holds; and what a query answers, as the store's does.
pub use ckms_steps::CKMS;
pub use ckms_store::Ranked;

// What a CKMS tells of itself.
pub use ckms_told::{cma, count, error_bound, last};

// One observation more. Refused: SLOTS, DAMAGED, COUNT, FULL.
pub fn insert(state: CKMS, rows: &mut [[u32; 3]], lens: &mut [u32], v: u32) -> Result<CKMS, Refusal>
    ensures { InsertPost state (entries_of rows.old) lens.old v result (entries_of rows.new) lens.new }
{
    state.check(rows, lens)?;
    if Store::OBSERVATIONS <= state.n {
        return Err(Refusal::Count);
    }
    if rows.len() <= state.held as usize {
        return Err(Refusal::Full);
    }
    Ok(state.take(rows, lens, v))
}

// The rank and the value at the fraction q of the observations. Refused: SLOTS, DAMAGED, PHI, EMPTY.
// The store tests its lists itself, so they are read once: only what a CKMS has beside its store is tested here.
pub fn query(state: CKMS, rows: &[[u32; 3]], lens: &[u32], q: Fraction) -> Result<Ranked, Refusal>
    ensures { result ≡ queried state (entries_of rows.now) lens.now q }
{
    let samples = state.samples();
    if state.record_sound() {
        return ckms_store::query(samples, rows, lens, q);
    }
    samples.check(rows, lens)?;
    Err(Refusal::Damaged)
}

// The theorems about the definitions are in proofs/. This contract states them, so that none can go missing.
pub fn promises()
    ensures { Promises }
{}
