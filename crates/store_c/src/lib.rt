// The boundary to C and Rust: the store's calls as exported functions. Lists are lent in place, states are structs of plain words by value, and
// an answer is a struct of numbers: the refusal's number or 0, and what the core answered. Every contract hands on the core's.
#![tactic(auto)]

ghost use Rattle.std.specs.Prelude.{◌≡◌};
ghost use Rattle.entries.specs.Entry.{entries_of};
ghost use Rattle.ckms_store.specs.Answers.{len_of, empty_of, queried};
ghost use Rattle.words.specs.Words.{fraction_of};
ghost use Rattle.store_words.specs.Stores.{store_of, flat_len, flat_empty, flat_ranked};
ghost use Rattle.store_c.specs.Posts.{StoreOpenPost, StoreInsertPost, StoreCompressPost};
ghost use Rattle.store_c.specs.Promises.{Promises};

use ckms_store::Store;
use store_words::{RankedAnswer, StoreAnswer, StoreWords};
use words::{Number, Ratio};

// A fresh store. Refused: SLOTS, EPSILON, BLOCK.
#[unsafe(no_mangle)]
pub extern "C" fn stelo_store_open(
    error: Ratio,
    block: u32,
    list: &mut [[u32; 3]],
    blocks: &mut [u32],
) -> StoreAnswer
    ensures { StoreOpenPost error block (entries_of list.old) blocks.old result (entries_of list.new) blocks.new }
{
    StoreAnswer::new(
        Store::open(error.into(), block, list, blocks),
        StoreWords::default(),
    )
}

// One observation more. Refused: SLOTS, DAMAGED, COUNT, FULL.
#[unsafe(no_mangle)]
pub extern "C" fn stelo_store_insert(
    store: StoreWords,
    list: &mut [[u32; 3]],
    blocks: &mut [u32],
    v: u32,
) -> StoreAnswer
    ensures { StoreInsertPost store (entries_of list.old) blocks.old v result (entries_of list.new) blocks.new }
{
    StoreAnswer::new(
        ckms_store::insert(Store::from(store), list, blocks, v),
        store,
    )
}

// Entries merged and blocks joined. Refused: SLOTS, DAMAGED.
#[unsafe(no_mangle)]
pub extern "C" fn stelo_store_compress(
    store: StoreWords,
    list: &mut [[u32; 3]],
    blocks: &mut [u32],
) -> StoreAnswer
    ensures { StoreCompressPost store (entries_of list.old) blocks.old result (entries_of list.new) blocks.new }
{
    StoreAnswer::new(
        ckms_store::compress(Store::from(store), list, blocks),
        store,
    )
}

// How many entries are held. Refused: SLOTS, DAMAGED.
#[unsafe(no_mangle)]
pub extern "C" fn stelo_store_len(store: StoreWords, list: &[[u32; 3]], blocks: &[u32]) -> Number
    ensures { result ≡ flat_len (len_of (store_of store) (entries_of list.now) blocks.now) }
{
    Number::from(ckms_store::len(Store::from(store), list, blocks))
}

// 1 if none is held, else 0. Refused: SLOTS, DAMAGED.
#[unsafe(no_mangle)]
pub extern "C" fn stelo_store_is_empty(
    store: StoreWords,
    list: &[[u32; 3]],
    blocks: &[u32],
) -> Number
    ensures { result ≡ flat_empty (empty_of (store_of store) (entries_of list.now) blocks.now) }
{
    Number::from(ckms_store::is_empty(Store::from(store), list, blocks).map(u32::from))
}

// The rank and the value at q. Refused: SLOTS, DAMAGED, PHI, EMPTY.
#[unsafe(no_mangle)]
pub extern "C" fn stelo_store_query(
    store: StoreWords,
    list: &[[u32; 3]],
    blocks: &[u32],
    q: Ratio,
) -> RankedAnswer
    ensures { result ≡ flat_ranked (queried (store_of store) (entries_of list.now) blocks.now (fraction_of q)) }
{
    RankedAnswer::from(ckms_store::query(Store::from(store), list, blocks, q.into()))
}

// The theorems about the definitions: the crate is not proved unless each of them is.
pub fn promises()
    ensures { Promises }
{}
