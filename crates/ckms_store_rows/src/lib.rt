// The parts of an insert and of a compression that need no state: on the rows and the block lengths in use.
#![tactic(auto)]

ghost use Rattle.std.specs.Prelude.{◌≡◌, ◌≤◌, ◌<◌, length};
ghost use Rattle.entries.specs.Entry.{entries_of};
ghost use Rattle.ckms_theory.specs.Pass.{Whole};
ghost use Rattle.ckms_store_rows.specs.Parts.{delta_at, SquashPost, JoinPost};

use invariant::AllowedError;

// The delta of a new entry: 0 at the front and at the end, else inv(r) - 1.
pub fn new_delta(error: AllowedError, place: usize, held: usize, rank: u32) -> u32
    requires { rank ≤ 1000004096 }
    ensures { result ≡ delta_at error.fraction place held rank }
{
    if place == 0 || place == held {
        return 0;
    }
    (error.inv(rank) - 1) as u32
}

// The entries are squashed, and the places that become free zeroed: how many are left. The block lengths become what stays of each block.
pub fn squash(rows: &mut [[u32; 3]], lens: &mut [u32], error: AllowedError) -> usize
    requires { Whole (length rows.old) lens.old }
    ensures { SquashPost error.fraction (entries_of rows.old) lens.old result (entries_of rows.new) lens.new }
{
    let left = ckms_squash::squash::squash(rows, lens, error);
    rows[left..].fill([0; 3]);
    left
}

// The blocks are joined, and the places that become free zeroed: how many are left.
pub fn join(lens: &mut [u32], size: u32) -> usize
    requires { 0 < length lens.old }
    ensures { JoinPost size lens.old result lens.new }
{
    let left = ckms_squash::join::join(lens, size);
    lens[left..].fill(0);
    left
}
