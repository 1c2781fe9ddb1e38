// What an insert and a compression do once their tests are passed.
// The rows and the block lengths stay two arguments, as the calls of the C interface lend them: a struct of both would be taken apart at each call.
// What an insert needs stands as a clause at each step that needs it: a state with that fact would be taken apart at each.
#![tactic(auto)]

ghost use Rattle.std.specs.Prelude.{◌<◌, length};
ghost use Rattle.entries.specs.Entry.{entries_of};
ghost use Rattle.ckms_store_steps.specs.Limits.{observations};
ghost use Rattle.ckms_store_work.specs.Steps.{Ready, PutPost, TidyPost};

use ckms_store_rows::{join, new_delta, squash};
use ckms_store_steps::Store;
use invariant::AllowedError;

// The fewest entries that are compressed.
const COMPRESSED: usize = 3;

// One observation more: the work of `insert`, once its tests are passed.
pub fn put(store: Store, rows: &mut [[u32; 3]], lens: &mut [u32], v: u32) -> Store
    requires { Ready store (entries_of rows.old) lens.old × (store.n < observations) × (store.held < length rows.old) }
    ensures { PutPost store (entries_of rows.old) lens.old v result (entries_of rows.new) lens.new }
{
    let error = AllowedError {
        fraction: store.error,
    };
    let held = store.held as usize;
    let blocks = store.blocks as usize;
    let spot = ckms_blocks::seek(&rows[..held], &lens[..blocks], v);
    let delta = new_delta(error, spot.place, held, spot.rank);
    room::insert_at(rows, held, spot.place, [v, 1, delta]);
    let grown = ckms_blocks::grow(lens, blocks, spot.block, store.block);
    Store {
        n: store.n + 1,
        held: store.held + 1,
        blocks: grown as u32,
        ..store
    }
}

// A compression: the work of `compress`, once its tests are passed. Fewer entries than that stay as they are.
pub fn tidy(store: Store, rows: &mut [[u32; 3]], lens: &mut [u32]) -> Store
    requires { Ready store (entries_of rows.old) lens.old }
    ensures { TidyPost store (entries_of rows.old) lens.old result (entries_of rows.new) lens.new }
{
    let held = store.held as usize;
    let blocks = store.blocks as usize;
    if held < COMPRESSED {
        return store;
    }
    let error = AllowedError {
        fraction: store.error,
    };
    let used = &mut lens[..blocks];
    let left = squash(&mut rows[..held], used, error);
    let joined = join(used, store.block);
    Store {
        held: left as u32,
        blocks: joined as u32,
        ..store
    }
}
