// The walk of a query. The stream has one of its own, which knows no scale and tells no rank.
ghost use Rattle.std.specs.Prelude.{◌≡◌, ◌≤◌, ◌<◌, length};
ghost use Rattle.entries.specs.Entry.{entries_of, sum_g};
ghost use Rattle.ckms_theory.specs.Walk.{look_up};

use ckms_theory::Ranked;
use entries::Slot;

// The value before the first entry where scale · (r + g + delta) is above the limit, and r; else the last value.
pub fn walk(rows: &[[u32; 3]], scale: u64, limit: u64) -> Ranked
    requires { (0 < length rows.now) × (length rows.now ≤ 4096) × (sum_g (entries_of rows.now) ≤ 1000000000) × (scale ≤ 131072) }
    ensures { result ≡ look_up scale limit (entries_of rows.now) }
{
    let mut before = rows[0].entry();
    let mut rank = u64::from(before.g);
    for row in &rows[1..] {
        let e = row.entry();
        let g = u64::from(e.g);
        if limit < scale * (rank + g + u64::from(e.delta)) {
            return Ranked {
                rank: rank as u32,
                value: before.v,
            };
        }
        rank += g;
        before = e;
    }
    // with the last value the rank of the entries held is answered, as the Rust has it, and not that of the observations
    Ranked {
        rank: rows.len() as u32,
        value: before.v,
    }
}
