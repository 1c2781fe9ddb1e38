// The store's state and answers. All six words fit a state, so the core's tests are all the tests.
// C reads these structs, so a refusal is a number in them.
#![tactic(auto)]

ghost use Rattle.std.specs.Prelude.{◌≡◌};
ghost use Rattle.store_words.specs.Promises.{Promises};
ghost use Rattle.store_words.specs.Stores.{store_of, words_of, flat_inserted, flat_ranked};

use ckms_store::Store;
use ckms_theory::Ranked;
use fraction::Fraction;
use refusal::Refusal;

// A store's state.
#[repr(C)]
#[derive(Clone, Copy, Default)]
pub struct StoreWords {
    pub num: u32,
    pub den: u32,
    pub n: u32,
    pub held: u32,
    pub block: u32,
    pub blocks: u32,
}

// A store, or the refusal's number.
#[repr(C)]
#[derive(Clone, Copy)]
pub struct StoreAnswer {
    pub refusal: u32,
    pub store: StoreWords,
}

// A rank and a value, or the refusal's number.
#[repr(C)]
#[derive(Clone, Copy)]
pub struct RankedAnswer {
    pub refusal: u32,
    pub rank: u32,
    pub value: u32,
}

// The state of the words.
impl From<StoreWords> for Store {
    ghost from_gives = { λ words store. store ≡ store_of words };

    fn from(words: StoreWords) -> Store {
        Store {
            error: Fraction {
                num: words.num,
                den: words.den,
            },
            n: words.n,
            held: words.held,
            block: words.block,
            blocks: words.blocks,
        }
    }
}

// The words of a state.
impl From<Store> for StoreWords {
    ghost from_gives = { λ store words. words ≡ words_of store };

    fn from(store: Store) -> StoreWords {
        StoreWords {
            num: store.error.num,
            den: store.error.den,
            n: store.n,
            held: store.held,
            block: store.block,
            blocks: store.blocks,
        }
    }
}

impl StoreAnswer {
    // What a call that gives a store answers: the state as it was given where the call is refused.
    pub fn new(answer: Result<Store, Refusal>, given: StoreWords) -> StoreAnswer
        ensures { result ≡ flat_inserted given answer }
    {
        let (refusal, store) = words::answered(answer.map(StoreWords::from), given);
        StoreAnswer { refusal, store }
    }
}

// What a query answers, a CKMS's too.
impl From<Result<Ranked, Refusal>> for RankedAnswer {
    ghost from_gives = { λ answer told. told ≡ flat_ranked answer };

    fn from(answer: Result<Ranked, Refusal>) -> RankedAnswer {
        let (refusal, found) = words::answered(answer, Ranked { rank: 0, value: 0 });
        RankedAnswer {
            refusal,
            rank: found.rank,
            value: found.value,
        }
    }
}

// The theorems about the definitions: the crate is not proved unless each of them is.
pub fn promises()
    ensures { Promises }
{}
