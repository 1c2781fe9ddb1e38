// Where a value goes in a sorted list of rows or entries.
#![tactic(auto)]

ghost use Rattle.std.specs.Prelude.{◌≡◌, map};
ghost use Rattle.entries.specs.Entry.{values};
ghost use Rattle.entries.specs.Place.{place};
ghost use Rattle.entries.specs.Ranks.{Rising, below};

use entries::Slot;

// The first place whose value is greater than x, else the end: every place is looked at. By `position` the proof did not close.
pub fn scan<T: Slot>(list: &[T], x: u32) -> usize
    ensures { result ≡ place x (values (map T.entry list.now)) }
{
    for (i, slot) in list.iter().enumerate() {
        if x < slot.entry().v {
            return i;
        }
    }
    list.len()
}

// The same of a sorted list: one longer than 10 is halved, and one half searched.
pub fn place<T: Slot>(list: &[T], x: u32) -> usize
    requires { Rising 0 (values (map T.entry list.now)) }
    ensures { result ≡ place x (values (map T.entry list.now)) }
{
    if list.len() <= 10 {
        return scan(list, x);
    }
    let middle = list.len() / 2;
    if x < list[middle].entry().v {
        place(&list[..middle], x)
    } else {
        middle + place(&list[middle..], x)
    }
}

// How many values of a sorted list are smaller than x: the first place whose value is not smaller.
pub fn smaller<T: Slot>(list: &[T], x: u32) -> usize
    requires { Rising 0 (values (map T.entry list.now)) }
    ensures { result ≡ below (values (map T.entry list.now)) x }
{
    list.partition_point(|slot| slot.entry().v < x)
}
