// The CKMS store over a lent list of rows [v, g, delta] and a lent list of as many block lengths, refusals included. Nothing in a state is
// trusted: every call tests the lengths of the lent lists, then whether state and lists are sound.
// The lent lists stay arguments beside the state, as README's calls and C lend them.
#![tactic(auto)]

ghost use Rattle.std.specs.Prelude.{◌≡◌};
ghost use Rattle.entries.specs.Entry.{entries_of};
ghost use Rattle.ckms_store.specs.Answers.{len_of, empty_of, queried};
ghost use Rattle.ckms_store.specs.Posts.{InsertPost, CompressPost};
ghost use Rattle.ckms_store.specs.Promises.{Promises};

use fraction::Fraction;
use refusal::Refusal;

// The store's type, with its limits and its opening; and what a query answers.
pub use ckms_store_steps::Store;
pub use ckms_theory::Ranked;

// One observation more. Refused: SLOTS, DAMAGED, COUNT, FULL.
pub fn insert(
    store: Store,
    rows: &mut [[u32; 3]],
    lens: &mut [u32],
    v: u32,
) -> Result<Store, Refusal>
    ensures { InsertPost store (entries_of rows.old) lens.old v result (entries_of rows.new) lens.new }
{
    store.check(rows, lens)?;
    if Store::OBSERVATIONS <= store.n {
        return Err(Refusal::Count);
    }
    if rows.len() <= store.held as usize {
        return Err(Refusal::Full);
    }
    Ok(ckms_store_work::put(store, rows, lens, v))
}

// Entries that the error allows are merged, and neighbouring blocks joined. Refused: SLOTS, DAMAGED.
pub fn compress(store: Store, rows: &mut [[u32; 3]], lens: &mut [u32]) -> Result<Store, Refusal>
    ensures { CompressPost store (entries_of rows.old) lens.old result (entries_of rows.new) lens.new }
{
    store.check(rows, lens)?;
    Ok(ckms_store_work::tidy(store, rows, lens))
}

// How many entries are held. Refused: SLOTS, DAMAGED.
pub fn len(store: Store, rows: &[[u32; 3]], lens: &[u32]) -> Result<u32, Refusal>
    ensures { result ≡ len_of store (entries_of rows.now) lens.now }
{
    store.check(rows, lens)?;
    Ok(store.held)
}

// Whether nothing is held. Refused: SLOTS, DAMAGED.
pub fn is_empty(store: Store, rows: &[[u32; 3]], lens: &[u32]) -> Result<bool, Refusal>
    ensures { result ≡ empty_of store (entries_of rows.now) lens.now }
{
    store.check(rows, lens)?;
    Ok(store.held == 0)
}

// The rank and the value at the fraction q of the observations. Refused: SLOTS, DAMAGED, PHI, EMPTY.
pub fn query(store: Store, rows: &[[u32; 3]], lens: &[u32], q: Fraction) -> Result<Ranked, Refusal>
    ensures { result ≡ queried store (entries_of rows.now) lens.now q }
{
    store.check(rows, lens)?;
    if !q.is_phi() {
        return Err(Refusal::Phi);
    }
    if store.n == 0 {
        return Err(Refusal::Empty);
    }
    Ok(ckms_store_look::look_up(store, rows, q))
}

// The theorems about the definitions are in proofs/. This contract states them, so that none can go missing.
pub fn promises()
    ensures { Promises }
{}
