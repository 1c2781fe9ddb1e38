// An insert into the store within a CKMS, once its tests are passed: one observation more and, on schedule, a compression behind it.
// Lists and clauses are as in `ckms_store_work`.
#![tactic(auto)]

ghost use Rattle.std.specs.Prelude.{◌<◌, length};
ghost use Rattle.entries.specs.Entry.{entries_of};
ghost use Rattle.ckms_store_steps.specs.Limits.{observations};
ghost use Rattle.ckms_store_work.specs.Steps.{Ready};
ghost use Rattle.ckms_store_grow.specs.Grow.{GrowPost};

use ckms_store_steps::Store;

// The store after v went in: compressed if `inserts`, the counter after it, is 0.
pub fn grow(samples: Store, inserts: u32, rows: &mut [[u32; 3]], lens: &mut [u32], v: u32) -> Store
    requires { Ready samples (entries_of rows.old) lens.old × (samples.n < observations) × (samples.held < length rows.old) }
    ensures { GrowPost samples inserts (entries_of rows.old) lens.old v result (entries_of rows.new) lens.new }
{
    let put = ckms_store_work::put(samples, rows, lens, v);
    if inserts == 0 {
        return ckms_store_work::tidy(put, rows, lens);
    }
    put
}
