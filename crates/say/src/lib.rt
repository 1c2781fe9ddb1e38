// Lines on standard output for the programs: words, and numbers in decimal.
// No contract can say what is written, so none stands here: every function is proved safe and ending, and what a program writes is compared.
// Written by the kit's io and not by println!, which would assume one thing more of the system (errno) and give every caller an io::Result to pass on.
#![tactic(auto)]

// Words, and no line's end.
pub fn words(text: &[u8]) {
    io::write_all(1, text);
}

// A number, and no line's end.
pub fn number(n: u32) {
    io::print_decimal(1, u64::from(n));
}

// A line: words, and a number behind them.
pub fn line(text: &[u8], n: u32) {
    wide_line(text, u64::from(n));
}

// The same line with a number of 64 bits.
pub fn wide_line(text: &[u8], n: u64) {
    words(text);
    io::print_decimal(1, n);
    words(b"\n");
}

// A line of two numbers: words before the first, and words between them.
pub fn pair(text: &[u8], first: u32, between: &[u8], second: u32) {
    words(text);
    number(first);
    line(between, second);
}

// A line of numbers: words before the first, and words between any two. Where those break the line, it is one number to a line.
pub fn list(text: &[u8], between: &[u8], numbers: &[u32]) {
    words(text);
    for (i, n) in numbers.iter().enumerate() {
        if i > 0 {
            words(between);
        }
        number(*n);
    }
    words(b"\n");
}

// A line of a row's three numbers, with words before them.
fn row(text: &[u8], [v, g, delta]: [u32; 3]) {
    words(text);
    number(v);
    pair(b" ", g, b" ", delta);
}

// A line for each row.
pub fn rows(text: &[u8], rows: &[[u32; 3]]) {
    for numbers in rows {
        row(text, *numbers);
    }
}
