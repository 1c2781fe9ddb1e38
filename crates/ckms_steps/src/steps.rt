// What the public calls do once their tests are passed, and the tests of every call.
ghost use Rattle.std.specs.Prelude.{◌≡◌, ◌<◌, length};
ghost use Rattle.entries.specs.Entry.{entries_of};
ghost use Rattle.ckms_store_steps.specs.Limits.{observations};
ghost use Rattle.ckms_steps.specs.State.{samples};
ghost use Rattle.ckms_steps.specs.Steps.{checked, Ready, TakePost};

use crate::CKMS;
use crate::record::{cma_after, count_on};
use ckms_store_steps::Store;
use refusal::Refusal;

impl CKMS {
    // The store within.
    pub fn samples(self) -> Store
        ensures { result ≡ samples self }
    {
        Store {
            error: self.error,
            n: self.n,
            held: self.held,
            block: CKMS::BLOCK,
            blocks: self.blocks,
        }
    }

    // SLOTS, then DAMAGED: what every call but opening tests first.
    pub fn check(self, rows: &[[u32; 3]], lens: &[u32]) -> Result<(), Refusal>
        ensures { result ≡ checked self (entries_of rows.now) lens.now }
    {
        self.samples().check(rows, lens)?;
        if !self.record_sound() {
            return Err(Refusal::Damaged);
        }
        Ok(())
    }

    // One observation more: the work of `insert`, once its tests are passed.
    pub fn take(self, rows: &mut [[u32; 3]], lens: &mut [u32], v: u32) -> CKMS
        requires { Ready self (entries_of rows.old) lens.old × (self.n < observations) × (self.held < length rows.old) }
        ensures { TakePost self (entries_of rows.old) lens.old v result (entries_of rows.new) lens.new }
    {
        let inserts = count_on(self.error, self.inserts);
        let cma = cma_after(self.cma, v, self.n + 1);
        let samples = ckms_store_grow::grow(self.samples(), inserts, rows, lens, v);
        CKMS {
            error: self.error,
            n: samples.n,
            held: samples.held,
            blocks: samples.blocks,
            inserts,
            last_in: Some(v),
            cma,
        }
    }
}
