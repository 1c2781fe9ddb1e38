// What a CKMS tells of itself: how many observations were accepted, the last value, the running mean, and the error as opened.
// Refused: SLOTS, DAMAGED. `ckms` passes the calls on.
// The lent lists stay arguments, as in the calls that pass them on.
#![tactic(auto)]

ghost use Rattle.std.specs.Prelude.{◌≡◌};
ghost use Rattle.entries.specs.Entry.{entries_of};
ghost use Rattle.ckms_told.specs.Answers.{count_of, last_of, cma_of, error_of};

use ckms_steps::CKMS;
use fraction::Fraction;
use mean::Mean;
use refusal::Refusal;

// How many observations were accepted.
pub fn count(state: CKMS, rows: &[[u32; 3]], lens: &[u32]) -> Result<u32, Refusal>
    ensures { result ≡ count_of state (entries_of rows.now) lens.now }
{
    state.check(rows, lens)?;
    Ok(state.n)
}

// The last value accepted, or none while empty.
pub fn last(state: CKMS, rows: &[[u32; 3]], lens: &[u32]) -> Result<Option<u32>, Refusal>
    ensures { result ≡ last_of state (entries_of rows.now) lens.now }
{
    state.check(rows, lens)?;
    Ok(state.last_in)
}

// The cumulative moving average of the values accepted, or none while empty.
pub fn cma(state: CKMS, rows: &[[u32; 3]], lens: &[u32]) -> Result<Option<Mean>, Refusal>
    ensures { result ≡ cma_of state (entries_of rows.now) lens.now }
{
    state.check(rows, lens)?;
    Ok(state.cma)
}

// The error as opened, unreduced.
pub fn error_bound(state: CKMS, rows: &[[u32; 3]], lens: &[u32]) -> Result<Fraction, Refusal>
    ensures { result ≡ error_of state (entries_of rows.now) lens.now }
{
    state.check(rows, lens)?;
    Ok(state.error)
}
