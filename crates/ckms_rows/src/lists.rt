// Whether a list of rows, and a list of block lengths, is sound. The stream's test asks something else of delta, and of the two ends.
// The bound on the length stands at each function, and at the walk: a struct around a lent list is no plainer than the clause.
ghost use Rattle.std.specs.Prelude.{◌≡◌, ◌≤◌, length};
ghost use Rattle.entries.specs.Entry.{entries_of};
ghost use Rattle.ckms_theory.specs.Lists.{entries_sound, blocks_sound};

use entries::Slot;

// Values never fall, each g is 1 or more, each delta at most `most`, and the g sum to n.
pub fn entries_sound(rows: &[[u32; 3]], most: u32, n: u32) -> bool
    requires { length rows.now ≤ 4096 }
    ensures { result ≡ entries_sound most n 0 0 (entries_of rows.now) }
{
    let mut low = 0;
    let mut sum: u64 = 0;
    for row in rows {
        let e = row.entry();
        if e.v < low || e.g < 1 || most < e.delta {
            return false;
        }
        low = e.v;
        sum += u64::from(e.g);
    }
    sum == u64::from(n)
}

// Each length is from 1 to the block size, and they sum to held.
pub fn blocks_sound(lens: &[u32], size: u32, held: u32) -> bool
    requires { length lens.now ≤ 4096 }
    ensures { result ≡ blocks_sound size held 0 lens.now }
{
    lens.iter().all(|len| 1 <= *len && *len <= size)
        && lens.iter().map(|len| u64::from(*len)).sum::<u64>() == u64::from(held)
}
