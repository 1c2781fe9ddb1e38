// The walk of the Greenwald-Khanna stream over a lent list, equal to its definition over entries.
#![tactic(auto)]

ghost use Rattle.std.specs.Prelude.{◌≡◌, ◌≤◌, ◌<◌, length, map};
ghost use Rattle.std.proofs.Math.Option.{some};
ghost use Rattle.greenwald_khanna_theory.specs.Walk.{look_up};

use entries::Slot;

// The value before the first entry where the sum of g so far, with its delta, passes the limit; else the last value.
pub fn look_up<T: Slot>(list: &[T], limit: u64) -> u32
    requires { (0 < length list.now) × (length list.now ≤ 65536) }
    ensures { look_up limit (map T.entry list.now) ≡ some result }
{
    let first = list[0].entry();
    let mut v = first.v;
    let mut sum = u64::from(first.g);
    for place in &list[1..] {
        let e = place.entry();
        let reached = sum + u64::from(e.g);
        if limit < reached + u64::from(e.delta) {
            return v;
        }
        v = e.v;
        sum = reached;
    }
    v
}
