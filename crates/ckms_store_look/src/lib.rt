// What a query does once its tests are passed.
// The lent lists stay arguments, as in the calls that pass them on.
#![tactic(auto)]

ghost use Rattle.std.specs.Prelude.{◌≡◌, take};
ghost use Rattle.entries.specs.Entry.{entries_of};
ghost use Rattle.ckms_theory.specs.Walk.{look_up};
ghost use Rattle.ckms_store_look.specs.Query.{Asking, scale_of, limit_of};

use ckms_rows::walk;
use ckms_store_steps::Store;
use ckms_theory::Ranked;
use fraction::Fraction;

// What a query answers, once its tests are passed.
pub fn look_up(store: Store, rows: &[[u32; 3]], q: Fraction) -> Ranked
    requires { Asking store (entries_of rows.now) q }
    ensures { result ≡ look_up (scale_of q) (limit_of store.error q store.n) (take store.held (entries_of rows.now)) }
{
    let n = store.n;
    let inv = invariant::inv_at(store.error, q, n);
    let limit = 2 * (u64::from(q.num) * u64::from(n)) + u64::from(q.den) * inv;
    walk::walk(&rows[..store.held as usize], 2 * u64::from(q.den), limit)
}
