// What a case answers once its observations are in, in the order of the original's stored lines.
use crate::case::{Case, Lent};
use crate::summary::Summary;
use ckms::CKMS;
use ckms_store::{Ranked, Store};
use fraction::Fraction;
use greenwald_khanna::Stream;
use histogram::{Bound, Histogram};
use mean::Mean;
use refusal::Refusal;

// Says what a call answers, or why it is refused.
fn told<T, F: FnOnce(T)>(answer: Result<T, Refusal>, say: F)
    requires { F.IsAlwaysCallable say }
{
    match answer {
        Ok(x) => say(x),
        Err(why) => say::line(b"refused ", why.number()),
    }
}

fn say_ranked(at: Ranked) {
    say::pair(b"query ", at.rank, b" ", at.value);
}

fn say_sum(sum: Option<u64>) {
    match sum {
        Some(x) => say::wide_line(b"sum ", x),
        None => say::words(b"sum none\n"),
    }
}

fn say_last(last: Option<u32>) {
    match last {
        Some(v) => say::line(b"last ", v),
        None => say::words(b"last none\n"),
    }
}

// The bits of a number; 0 of anything else.
fn bits(x: f64) -> u64 {
    if mean::is_finite(x) { x.to_bits() } else { 0 }
}

// The mean's bits, in hexadecimal.
fn say_mean(mean: Option<Mean>) {
    let Some(m) = mean else {
        return say::words(b"mean none\n");
    };
    say::words(b"mean ");
    io::print_hex(1, bits(m.value), 16);
    say::words(b"\n");
}

// The entries held, one to a line.
fn say_entries(rows: &[[u32; 3]], held: u32) {
    say::rows(b"entry ", rows.get(..held as usize).unwrap_or(&[]));
}

// The lengths of the blocks, one to a line.
fn say_blocks(lens: &[u32], blocks: u32) {
    if blocks > 0 {
        let held = lens.get(..blocks as usize).unwrap_or(&[]);
        say::list(b"block ", b"\nblock ", held);
    }
}

fn tell_stream(s: Stream, rows: &[[u32; 3]]) {
    told(greenwald_khanna::n(s, rows), |n| say::line(b"n ", n));
    say_entries(rows, s.held);
}

// What a histogram totals at one of its bounds.
fn tell_bound(h: Histogram, bounds: &[u32], counts: &[u32], x: u32) {
    let bound = Bound::Finite(x);
    let below = histogram::total_below(h, bounds, counts, bound);
    let above = histogram::total_above(h, bounds, counts, bound);
    let between = histogram::total_between(h, bounds, counts, bound, Bound::PosInf);
    told(below, |n| say::line(b"below ", n));
    told(above, |n| say::line(b"above ", n));
    told(between, |n| say::line(b"between ", n));
}

fn tell_histogram(h: Histogram, bounds: &[u32], counts: &[u32]) {
    say::list(b"bin ", b"\nbin ", counts);
    told(histogram::count(h, bounds, counts), |n| {
        say::line(b"count ", n)
    });
    told(histogram::sum(h, bounds, counts), say_sum);
    for x in bounds {
        tell_bound(h, bounds, counts, *x);
    }
}

fn tell_store(s: Store, rows: &[[u32; 3]], lens: &[u32]) {
    say::line(b"n ", s.n);
    say_blocks(lens, s.blocks);
    say_entries(rows, s.held);
}

fn tell_ckms(c: CKMS, rows: &[[u32; 3]], lens: &[u32]) {
    told(ckms::count(c, rows, lens), |n| say::line(b"count ", n));
    told(ckms::last(c, rows, lens), say_last);
    told(ckms::cma(c, rows, lens), say_mean);
    say::line(b"inserts ", c.inserts);
    say_blocks(lens, c.blocks);
    say_entries(rows, c.held);
}

// The answer at one fraction of the observations; a histogram has none.
fn tell_at(summary: Summary, rows: &[[u32; 3]], lens: &[u32], q: Fraction) {
    match summary {
        Summary::Stream(s) => told(greenwald_khanna::quantile(s, rows, q), |v| {
            say::line(b"quantile ", v)
        }),
        Summary::Histogram(_) => {}
        Summary::Store(s) => told(ckms_store::query(s, rows, lens, q), say_ranked),
        Summary::CKMS(c) => told(ckms::query(c, rows, lens, q), say_ranked),
    }
}

// All that a summary answers; last the answers at 0/8, 1/8, .. 8/8.
fn tell_all(summary: Summary, bounds: &[u32], rows: &[[u32; 3]], numbers: &[u32]) {
    match summary {
        Summary::Stream(s) => tell_stream(s, rows),
        Summary::Histogram(h) => tell_histogram(h, bounds, numbers),
        Summary::Store(s) => tell_store(s, rows, numbers),
        Summary::CKMS(c) => tell_ckms(c, rows, numbers),
    }
    for num in 0..=8 {
        tell_at(summary, rows, numbers, Fraction { num, den: 8 });
    }
}

// All that a case answers.
pub fn tell(answer: Result<Summary, Refusal>, case: Case<'_>, lent: &Lent<'_>) {
    told(answer, |summary| {
        tell_all(summary, case.bounds(), lent.rows, lent.numbers)
    });
}
