// The test whether a lent list holds the entries of a sound Greenwald-Khanna stream, equal to its definition over entries.
#![tactic(auto)]

ghost use Rattle.std.specs.Prelude.{◌≡◌, ◌&&◌, ◌≤◌, length, map};
ghost use Rattle.greenwald_khanna_theory.specs.Sound.{first_exact, last_exact, sound_entries};

use entries::Slot;

// Whether the first entry has g = 1 and delta = 0, and the last delta = 0. No entries: nothing is wrong.
fn ends_exact<T: Slot>(list: &[T]) -> bool
    ensures { result ≡ first_exact (map T.entry list.now) && last_exact (map T.entry list.now) }
{
    list.first()
        .is_none_or(|first| first.entry().g == 1 && first.entry().delta == 0)
        && list.last().is_none_or(|last| last.entry().delta == 0)
}

// Whether the entries are those of a sound stream of n observations, in one pass: it runs at every call.
// The store's test asks something else of delta and nothing of the two ends, so each has its own.
pub fn sound_entries<T: Slot>(list: &[T], n: u32, p: u32) -> bool
    requires { length list.now ≤ 65536 }
    ensures { result ≡ sound_entries p n (map T.entry list.now) }
{
    if !ends_exact(list) {
        return false;
    }
    let most = u64::from(p) + 1;
    let mut low = 0;
    let mut sum: u64 = 0;
    for place in list {
        let e = place.entry();
        let g = u64::from(e.g);
        if e.v < low || g < 1 || most < g + u64::from(e.delta) {
            return false;
        }
        low = e.v;
        sum += g;
    }
    sum == u64::from(n)
}
