// Inserts the observations of a scan file one after another, up to the first refusal.
#![tactic(auto)]

ghost use Rattle.entries.specs.Entry.{entries_of};
ghost use Rattle.scan_file.specs.Layout.{observations_at};
ghost use Rattle.scan_insert.specs.Inserts.{insert_all, RanPost};

use greenwald_khanna::Stream;
use refusal::Refusal;
use scan_file::Layout;

// What inserting came to: the stream, and the number of the refusal that ended it, if one did.
#[derive(Clone, Copy)]
pub struct Ran {
    pub stream: Stream,
    pub refused: Option<u32>,
}

// Inserts the observations one after another, and stops at the first refusal.
pub fn insert_all(first: Stream, layout: Layout, bytes: &[u8], rows: &mut [[u32; 3]]) -> Ran
    ensures { RanPost (insert_all first (entries_of rows.old) (observations_at bytes.now layout.fractions layout.observations)) result (entries_of rows.new) }
{
    let mut stream = first;
    for i in 0..layout.observations {
        let inserted = greenwald_khanna::insert(stream, rows, layout.observation(bytes, i));
        let Ok(next) = inserted else {
            return Ran {
                stream,
                refused: Some(Refusal::number_in(inserted)),
            };
        };
        stream = next;
    }
    Ran {
        stream,
        refused: None,
    }
}
