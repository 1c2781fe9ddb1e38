// The store's state, its limits and its opening, and the tests of every call.
// The lent lists stay arguments, as in the calls that pass them on.
#![tactic(auto)]

ghost use Rattle.std.specs.Prelude.{◌≡◌, ◌≤◌, length};
ghost use Rattle.entries.specs.Entry.{entries_of};
ghost use Rattle.ckms_store_steps.specs.Answers.{checked};
ghost use Rattle.ckms_store_steps.specs.Limits.{slots, sizes, observations, deltas, denominator, slots_ok, size_ok};
ghost use Rattle.ckms_store_steps.specs.Opening.{OpenPost};
ghost use Rattle.ckms_store_steps.specs.Sound.{words_sound, sound};

use ckms_rows::lists;
use fraction::Fraction;
use refusal::Refusal;

// A store's own words: its error, the observations taken, the entries held, the block size and the blocks in use.
#[derive(Clone, Copy)]
pub struct Store {
    pub error: Fraction,
    pub n: u32,
    pub held: u32,
    pub block: u32,
    pub blocks: u32,
}

// Whether there are 1 to 4,096 slots, and as many block places.
fn slots_ok(rows: usize, places: usize) -> bool
    ensures { result ≡ slots_ok rows places }
{
    (1..=Store::SLOTS).contains(&rows) && places == rows
}

// Whether a block may have so many entries.
fn size_ok(size: u32) -> bool
    ensures { result ≡ size_ok size }
{
    (1..=Store::BLOCK).contains(&size)
}

impl Store {
    // The most slots a list may have.
    pub const SLOTS: usize = 4096;

    // The largest block.
    pub const BLOCK: u32 = 4096;

    // The most observations a store takes.
    pub const OBSERVATIONS: u32 = 1000000000;

    // The largest delta of a sound entry.
    pub const DELTA: u32 = 3999999999;

    // The largest denominator.
    pub const DENOMINATOR: u32 = 65536;

    // The limits as functions: their contracts tie the constants to the definitions.
    pub fn slots() -> usize
        ensures { result ≡ slots }
    {
        Store::SLOTS
    }

    pub fn sizes() -> u32
        ensures { result ≡ sizes }
    {
        Store::BLOCK
    }

    pub fn observations() -> u32
        ensures { result ≡ observations }
    {
        Store::OBSERVATIONS
    }

    pub fn deltas() -> u32
        ensures { result ≡ deltas }
    {
        Store::DELTA
    }

    pub fn denominator() -> u32
        ensures { result ≡ denominator }
    {
        Store::DENOMINATOR
    }

    // A fresh store over the lent lists, whose places become zero. Refused: SLOTS, EPSILON, BLOCK.
    pub fn open(
        error: Fraction,
        block: u32,
        rows: &mut [[u32; 3]],
        lens: &mut [u32],
    ) -> Result<Store, Refusal>
        ensures { OpenPost error block (entries_of rows.old) lens.old result (entries_of rows.new) lens.new }
    {
        if !slots_ok(rows.len(), lens.len()) {
            return Err(Refusal::Slots);
        }
        if !error.is_error() {
            return Err(Refusal::Epsilon);
        }
        if !size_ok(block) {
            return Err(Refusal::Block);
        }
        rows.fill([0; 3]);
        lens.fill(0);
        Ok(Store {
            error,
            n: 0,
            held: 0,
            block,
            blocks: 0,
        })
    }

    // Whether the words of the state are sound, over so many slots and block places.
    fn words_sound(self, slots: usize, places: usize) -> bool
        ensures { result ≡ words_sound self slots places }
    {
        self.error.is_error()
            && self.n <= Store::OBSERVATIONS
            && self.held as usize <= slots
            && size_ok(self.block)
            && self.blocks as usize <= places
    }

    // Whether the state and the lent lists are sound.
    pub fn is_sound(self, rows: &[[u32; 3]], lens: &[u32]) -> bool
        requires { (length rows.now ≤ 4096) × (length lens.now ≤ 4096) }
        ensures { result ≡ sound self (entries_of rows.now) lens.now }
    {
        self.words_sound(rows.len(), lens.len())
            && lists::entries_sound(&rows[..self.held as usize], Store::DELTA, self.n)
            && lists::blocks_sound(&lens[..self.blocks as usize], self.block, self.held)
    }

    // SLOTS, then DAMAGED: what every call but opening tests first.
    pub fn check(self, rows: &[[u32; 3]], lens: &[u32]) -> Result<(), Refusal>
        ensures { result ≡ checked self (entries_of rows.now) lens.now }
    {
        if !slots_ok(rows.len(), lens.len()) {
            return Err(Refusal::Slots);
        }
        if !self.is_sound(rows, lens) {
            return Err(Refusal::Damaged);
        }
        Ok(())
    }
}
