// The original's answers, replayed: standard input holds a stored list of cases, this library runs them, and the lines that it writes are
// compared with those of the original. A case is its kind, how many words follow, and those words, each a u32, little-endian:
//     1 stream: ε's two words, observations        2 histogram: how many bounds, the bounds, observations
//     3 store: the error's two words, block size, observations and compressions        4 CKMS: the error's two words, observations
// The kind 0 ends the list.
#![tactic(auto)]

use case::{Case, Lent};
use ckms_store::Store;
use summary::Summary;

mod case;
mod kind;
mod summary;
mod tell;
mod words;

// The places of the lent lists.
const SLOTS: usize = Store::SLOTS;

// The kind that ends the list.
const END: u32 = 0;

// One case, over the rows and as many of the numbers as it takes.
fn run_case(case: Case<'_>, rows: &mut [[u32; 3]], numbers: &mut [u32]) {
    let mut lent = Lent {
        rows,
        numbers: numbers.get_mut(..case.places()).unwrap_or(&mut []),
    };
    case.say_head();
    let answer = Summary::of(case, &mut lent);
    tell::tell(answer, case, &lent);
}

// Case after case, up to the end of the list.
fn replay(list: &[u32], rows: &mut [[u32; 3]], numbers: &mut [u32]) {
    let mut rest = list;
    while rest.first() != Some(&END) {
        let Some((case, behind)) = Case::first_of(rest) else {
            return say::words(b"the list is cut, or a case does not fit its kind\n");
        };
        run_case(case, rows, numbers);
        rest = behind;
    }
}

fn main() {
    let mut file = io::large_buffer();
    let mut words = [0u32; 16384];
    let mut rows = [[0u32; 3]; SLOTS];
    let mut numbers = [0u32; SLOTS];
    let n = io::read_full(0, &mut file);
    let list = words::read(&file[..n], &mut words);
    replay(list, &mut rows, &mut numbers);
}
