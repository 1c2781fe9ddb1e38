// The CKMS store's work on block lengths at an insert: where a new value goes, and how its block grows.
#![tactic(auto)]

ghost use Rattle.std.specs.Prelude.{◌-◌, ◌≤◌, ◌<◌, length};
ghost use Rattle.entries.specs.Entry.{entries_of};
ghost use Rattle.ckms_theory.specs.Seek.{InBlocks, Sought, Grown};
ghost use Rattle.ckms_blocks.specs.Skip.{Skipped};

use ckms_theory::Spot;
use entries::Slot;

// A block, the place where it starts, and the g-sums of the blocks moved into on the way.
#[derive(Clone, Copy)]
pub struct Start {
    pub block: usize,
    pub start: usize,
    pub sum: u64,
}

// The first block whose last value is not smaller than x, else the last block.
fn skip(rows: &[[u32; 3]], lens: &[u32], x: u32) -> Start
    requires { InBlocks (entries_of rows.now) lens.now × (0 < length lens.now) }
    ensures { Skipped x (entries_of rows.now) lens.now result }
{
    let mut at = Start {
        block: 0,
        start: 0,
        sum: 0,
    };
    for block in 1..lens.len() {
        let end = at.start + lens[block - 1] as usize;
        if x <= rows[end - 1].entry().v {
            return at;
        }
        let next = end + lens[block] as usize;
        at = Start {
            block,
            start: end,
            sum: at.sum + entries::sum_g(&rows[end..next]),
        };
    }
    at
}

// Where x goes: its block, its place, and r as the Rust counts it.
pub fn seek(rows: &[[u32; 3]], lens: &[u32], x: u32) -> Spot
    requires { InBlocks (entries_of rows.now) lens.now }
    ensures { Sought x (entries_of rows.now) lens.now result }
{
    if lens.is_empty() {
        return Spot {
            block: 0,
            place: 0,
            rank: 0,
        };
    }
    let Start { block, start, sum } = skip(rows, lens, x);
    let end = start + lens[block] as usize;
    let inner = search::smaller(&rows[start..end], x);
    Spot {
        block,
        place: start + inner,
        rank: (sum + inner as u64) as u32,
    }
}

// Block `block` takes one entry more, or gives its last one to a new block behind it: how many blocks there are then.
// The list comes whole, with the number of its blocks, since a new block takes a place behind them.
pub fn grow(lens: &mut [u32], blocks: usize, block: usize, size: u32) -> usize
    requires { (block ≤ blocks - 1) × (blocks < length lens.old) }
    ensures { Grown size blocks block lens.old result lens.new }
{
    if blocks == 0 {
        lens[0] = 1;
        return 1;
    }
    if lens[block] < size {
        lens[block] += 1;
        return blocks;
    }
    room::insert_at(lens, blocks, block + 1, 1);
    blocks + 1
}
