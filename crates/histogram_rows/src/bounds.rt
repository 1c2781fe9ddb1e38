// The bounds of the bins: their order, and where a bound stands among them.
ghost use Rattle.std.specs.Prelude.{◌≡◌, suc, ◌≤◌, length};
ghost use Rattle.entries.specs.Order.{rising};
ghost use Rattle.entries.specs.Ranks.{Rising};
ghost use Rattle.histogram_rows.specs.Bounds.{ending};

use crate::Bound;

// Whether no bound is smaller than the one before.
pub fn rising(bounds: &[u32]) -> bool
    ensures { result ≡ rising 0 bounds.now }
{
    bounds.is_sorted()
}

// How many bins have a bound that is at most u: they are the first ones. The bin of +Inf comes last.
pub fn ending(bounds: &[u32], u: Bound) -> usize
    requires { Rising 0 bounds.now }
    ensures { (result ≡ ending bounds.now u) × (result ≤ suc (length bounds.now)) }
{
    match u {
        Bound::Finite(x) => bounds.partition_point(|b| *b <= x),
        Bound::PosInf => bounds.len() + 1,
    }
}
