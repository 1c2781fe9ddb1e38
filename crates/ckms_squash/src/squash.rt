// Compress, first half: one forward pass over the rows with a write place, and the block lengths after it.
// The write place w and the place i stay two numbers, and the bounds stand at each function: with both in one struct the `for` over i would be
// steps by hand, and a struct around the lent rows is no plainer than the clause.
ghost use Rattle.std.specs.Prelude.{◌≡◌, ◌+◌, ◌≤◌, ◌<◌, length, drop};
ghost use Rattle.entries.specs.Entry.{entries_of};
ghost use Rattle.ckms_theory.specs.Blocks.{total};
ghost use Rattle.ckms_theory.specs.Pass.{Turned, Passed, Whole, Finished, Squashed};
ghost use Rattle.ckms_theory.specs.Squash.{merges};

use entries::{Entry, Slot};
use invariant::AllowedError;

// Whether the next entry goes into the current one.
fn merges(error: AllowedError, r: u32, current: Entry, next: Entry) -> bool
    ensures { result ≡ merges error.fraction r current next }
{
    u64::from(current.g) + u64::from(next.g) + u64::from(next.delta) <= error.inv(r)
}

// One step: the row at i goes into the current one, at w - 1, or stands behind it and is the current one then. How many stand in place.
// r is i, as the Rust counts it.
fn turn(rows: &mut [[u32; 3]], w: usize, i: usize, error: AllowedError) -> usize
    requires { (0 < w) × (w ≤ i) × (i < length rows.old) × (length rows.old ≤ 4096) }
    ensures { Turned error.fraction w i (entries_of rows.old) result (entries_of rows.new) }
{
    let current = rows[w - 1].entry();
    let next = rows[i].entry();
    if merges(error, i as u32, current, next) {
        rows[w - 1] = Slot::holding(next.absorbing(current));
        return w;
    }
    rows[w] = rows[i];
    w + 1
}

// The steps from `from` up to `end`, one block's.
fn pass(rows: &mut [[u32; 3]], mut w: usize, from: usize, end: usize, error: AllowedError) -> usize
    requires { (0 < w) × (w ≤ from) × (from ≤ end) × (end ≤ length rows.old) × (length rows.old ≤ 4096) }
    ensures { Passed error.fraction w from end (entries_of rows.old) result (entries_of rows.new) }
{
    for i in from..end {
        w = turn(rows, w, i, error);
    }
    w
}

// The pass over the blocks behind the first: how many rows are left. Each length becomes what stays of its block.
fn finish(
    rows: &mut [[u32; 3]],
    lens: &mut [u32],
    mut w: usize,
    mut i: usize,
    error: AllowedError,
) -> usize
    requires { (0 < w) × (w ≤ i) × (0 < length lens.old) × (i + total (drop 1 lens.old) ≡ length rows.old) × (length rows.old ≤ 4096) }
    ensures { Finished error.fraction w i (entries_of rows.old) lens.old result (entries_of rows.new) lens.new }
{
    for len in &mut lens[1..] {
        let end = i + *len as usize;
        let after = pass(rows, w, i, end, error);
        *len = (after - w) as u32;
        w = after;
        i = end;
    }
    w
}

// The whole pass: the first row is the current one, and stays.
pub fn squash(rows: &mut [[u32; 3]], lens: &mut [u32], error: AllowedError) -> usize
    requires { Whole (length rows.old) lens.old }
    ensures { Squashed error.fraction (entries_of rows.old) lens.old result (entries_of rows.new) lens.new }
{
    let first = lens[0] as usize;
    let w = pass(rows, 1, 1, first, error);
    lens[0] = w as u32;
    finish(rows, lens, w, first, error)
}
