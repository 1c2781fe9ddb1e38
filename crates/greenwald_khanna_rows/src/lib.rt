// The compression of the Greenwald-Khanna stream over a list, equal to its definition over entries.
#![tactic(auto)]

ghost use Rattle.std.specs.Prelude.{◌≡◌, ◌<◌, length, map};
ghost use Rattle.greenwald_khanna_theory.specs.Summary.{mergeable};
ghost use Rattle.greenwald_khanna_rows.specs.Compress.{TurnPost, MergedFrom, CompressPost};

use entries::{Entry, Slot};

// Whether the entry e may be deleted, its g going to the entry next behind it.
fn mergeable(e: Entry, next: Entry, p: u32) -> bool
    ensures { result ≡ mergeable p e next }
{
    u64::from(e.g) + u64::from(next.g) + u64::from(next.delta) < u64::from(p)
        && products::band(p, e.delta) <= products::band(p, next.delta)
}

// One turn: the entry at i goes into the one at w, or is put before it. The answer is the place of the first entry that is done.
fn turn<T: Slot>(list: &mut [T], i: usize, w: usize, p: u32) -> usize
    requires { (i < w) × (w < length list.old) }
    ensures { TurnPost p i w (map T.entry list.old) result (map T.entry list.new) }
{
    let place = list[i];
    let e = place.entry();
    let next = list[w].entry();
    if mergeable(e, next, p) {
        list[w] = T::holding(next.absorbing(e));
        return w;
    }
    list[w - 1] = place;
    w - 1
}

// The backward pass over all places but the last and the first. What is left behind the first stands from the answer on.
fn merge_back<T: Slot>(list: &mut [T], p: u32) -> usize
    requires { 1 < length list.old }
    ensures { MergedFrom p (map T.entry list.old) 1 result (map T.entry list.new) }
{
    let mut w = list.len() - 1;
    for i in (1..list.len() - 1).rev() {
        w = turn(list, i, w, p);
    }
    w
}

// The entries compressed, and the places that became free zeroed. The answer is how many are held then.
pub fn compress<T: Slot>(list: &mut [T], p: u32) -> usize
    ensures { CompressPost p (map T.entry list.old) result (map T.entry list.new) }
{
    let held = list.len();
    if held < 2 {
        return held;
    }
    let w = merge_back(list, p);
    // w is at least 1. Said here, it tells the compiler that entries only move down; else the archive would ask for a memmove from outside.
    list.copy_within(w.max(1).., 1);
    let left = 1 + (held - w);
    room::clear(list, left, held, T::holding(Entry::default()));
    left
}
