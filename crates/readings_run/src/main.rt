// The customer's readings that are not proved are run: 6, 8 and 13. What is written is compared with the numbers of their table.
#![tactic(auto)]

use ckms::CKMS;
use fraction::Fraction;
use greenwald_khanna::Stream;
use histogram::{Bound, Histogram};
use refusal::Refusal;

// A line for one opening: the fraction, and `opens` or the refusal.
fn say_opened(num: u32, den: u32) {
    let mut rows = [[7u32; 3]; 16];
    say::number(num);
    say::words(b"/");
    say::number(den);
    match Stream::open(Fraction { num, den }, &mut rows) {
        Ok(_) => say::words(b" opens\n"),
        Err(why) => say::line(b" refused ", why.number()),
    }
}

// Reading 6: the ends of what ε may be.
fn reading_6() {
    for (num, den) in [(1, 2), (1, 65536), (501, 1000), (0, 7), (1, 0), (1, 65537)] {
        say_opened(num, den);
    }
}

// Inserts 0, 1, .. below `end`; a refused one leaves the histogram as it was.
fn count_below(start: Histogram, bounds: &[u32], counts: &mut [u32], end: u32) -> Histogram {
    let mut h = start;
    for v in 0..end {
        h = histogram::insert(h, bounds, counts, v).unwrap_or(h);
    }
    h
}

fn say_total(text: &[u8], answer: Result<u32, Refusal>) {
    match answer {
        Ok(n) => say::line(text, n),
        Err(why) => say::line(b"refused ", why.number()),
    }
}

// What the histogram of reading 8 tells.
fn say_histogram(h: Histogram, bounds: &[u32], counts: &[u32]) {
    say::list(b"", b" ", counts);
    if let Ok(Some(sum)) = histogram::sum(h, bounds, counts) {
        say::wide_line(b"sum ", sum);
    }
    say_total(
        b"above 0 is ",
        histogram::total_above(h, bounds, counts, Bound::Finite(0)),
    );
    say_total(
        b"above 11 is ",
        histogram::total_above(h, bounds, counts, Bound::Finite(11)),
    );
}

// Reading 8: bounds 10 256 1987 1990 with 0 to 2047. The counts are not zero before opening.
fn reading_8() {
    let bounds = [10u32, 256, 1987, 1990];
    let mut counts = [7u32; 5];
    let Ok(empty) = Histogram::open(&bounds, &mut counts) else {
        return;
    };
    let h = count_below(empty, &bounds, &mut counts, 2048);
    say_histogram(h, &bounds, &counts);
}

// Inserts 1, 2, .. up to `end`; a refused one leaves the CKMS as it was.
fn insert_up_to(start: CKMS, rows: &mut [[u32; 3]], lens: &mut [u32], end: u32) -> CKMS {
    let mut c = start;
    for v in 1..=end {
        c = ckms::insert(c, rows, lens, v).unwrap_or(c);
    }
    c
}

// A line for one query: its rank and its value.
fn say_query(c: CKMS, rows: &[[u32; 3]], lens: &[u32], num: u32, den: u32) {
    match ckms::query(c, rows, lens, Fraction { num, den }) {
        Ok(at) => say::pair(b"rank ", at.rank, b", value ", at.value),
        Err(why) => say::line(b"query refused ", why.number()),
    }
}

// Reading 13: error 1/1000, 1 to 1000. The lent lists are not zero before opening.
fn reading_13() {
    let mut rows = [[7u32; 3]; 4096];
    let mut lens = [7u32; 4096];
    let Ok(fresh) = CKMS::open(Fraction { num: 1, den: 1000 }, &mut rows, &mut lens) else {
        return;
    };
    let c = insert_up_to(fresh, &mut rows, &mut lens, 1000);
    for (num, den) in [(0, 1), (998, 1000), (999, 1000), (1, 1)] {
        say_query(c, &rows, &lens, num, den);
    }
}

fn main() {
    reading_6();
    reading_8();
    reading_13();
}
