// Entries of a summary, and the work on lent lists of them that every module shares.
#![tactic(auto)]

ghost use Rattle.std.specs.Prelude.{◌≡◌, ◌+◌, ◌≤◌, ◌<◌, ◌^◌, length, map};
ghost use Rattle.entries.specs.Entry.{entry, entry_of, sum_g};
ghost use Rattle.entries.specs.declared.Entry.{Entry};
ghost use Rattle.entries.specs.Promises.{Promises};

// v is an observation; g says how many ranks lie between the entry before and this one; delta how unsure its rank is.
#[derive(Clone, Copy, Debug, Default, PartialEq, Eq)]
pub struct Entry {
    pub v: u32,
    pub g: u32,
    pub delta: u32,
}

impl Entry {
    // This entry with the g of the one before it, which is deleted.
    pub fn absorbing(self, before: Entry) -> Entry
        requires { before.g + self.g < 2 ^ 32 }
        ensures { result ≡ entry self.v (before.g + self.g) self.delta }
    {
        Entry {
            g: before.g + self.g,
            ..self
        }
    }
}

// A place of a lent list: it holds an entry, and its type says how. A trait and not From alone, so that a contract can name the entry by `T.entry`.
pub trait Slot: Copy {
    // The entry that stands in it.
    ghost entry: { Self → Entry };

    fn entry(self) -> Entry
        ensures { result ≡ entry self };

    // A place with the entry e in it.
    fn holding(e: Entry) -> Self
        ensures { entry result ≡ e };
}

impl Slot for Entry {
    ghost entry = { λ e. e };

    fn entry(self) -> Entry {
        self
    }

    fn holding(e: Entry) -> Entry {
        e
    }
}

// A row [v, g, delta].
impl Slot for [u32; 3] {
    ghost entry = { entry_of };

    fn entry(self) -> Entry {
        let [v, g, delta] = self;
        Entry { v, g, delta }
    }

    fn holding(e: Entry) -> [u32; 3] {
        [e.v, e.g, e.delta]
    }
}

// The sum of the g.
pub fn sum_g<T: Slot>(places: &[T]) -> u64
    requires { length places.now ≤ 65536 }
    ensures { result ≡ sum_g (map T.entry places.now) }
{
    places.iter().map(|place| u64::from(place.entry().g)).sum()
}

// What is shown of sorting, of ranks and of rows. The theorems are in proofs/; this contract states them, so that none can go missing.
pub fn promises()
    ensures { Promises }
{}
