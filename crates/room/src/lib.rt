// Making room in a lent list, and clearing places that became free.
// The list comes whole and its places as numbers: cut to a part, the same numbers would stand at each call, and the part could not grow.
#![tactic(auto)]

ghost use Rattle.std.specs.Prelude.{◌≡◌, ◌++◌, suc, ◌≤◌, ◌<◌, length, take, drop};
ghost use Rattle.entries.specs.Lists.{put_at, cleared};

// The first `held` elements with `x` put in at `pos`; one more is held then.
pub fn insert_at<T: Copy>(list: &mut [T], held: usize, pos: usize, x: T)
    requires { (pos ≤ held) × (held < length list.old) }
    ensures { list.new ≡ put_at pos x (take held list.old) ++ drop (suc held) list.old }
{
    list.copy_within(pos..held, pos + 1);
    list[pos] = x;
}

// Places `from` up to `to` become `zero`. Not by `fill`, which asks for a clone that can't fail, and `T: Copy` alone says no such thing.
pub fn clear<T: Copy>(list: &mut [T], from: usize, to: usize, zero: T)
    requires { (from ≤ to) × (to ≤ length list.old) }
    ensures { list.new ≡ cleared zero from to list.old }
{
    for place in list[from..to].iter_mut() {
        *place = zero;
    }
}
