// Puts pieces of text at a place: words, numbers in decimal, fractions.
// The place travels beside the buffer: a struct that lent the buffer would have to hold what is said of both at every write. Nor by Display, whose
// texts a contract knows only where they go to a String, and there is no heap.
#![tactic(auto)]

ghost use Rattle.std.specs.Prelude.{◌+◌, ◌≤◌, length};
ghost use Rattle.scan_put.specs.Decimal.{decimal};
ghost use Rattle.scan_put.specs.Pieces.{named, shown};
ghost use Rattle.scan_put.specs.Put.{Put};

use fraction::Fraction;

// Puts a text at a place, and answers the place behind it.
fn put(out: &mut [u8], at: usize, text: &[u8]) -> usize
    requires { at + length text.now ≤ length out.old }
    ensures { Put text.now at out.old result out.new }
{
    out[at..at + text.len()].copy_from_slice(text);
    at + text.len()
}

// Puts a number in decimal.
fn put_number(out: &mut [u8], at: usize, n: u32) -> usize
    requires { at + 10 ≤ length out.old }
    ensures { Put (decimal n) at out.old result out.new × (result ≤ at + 10) }
{
    let mut digits = [0u8; 20];
    let k = io::decimal(u64::from(n), &mut digits);
    put(out, at, &digits[..k])
}

// Puts words, a number and the end of the line.
pub fn put_named(out: &mut [u8], at: usize, words: &[u8], n: u32) -> usize
    requires { at + length words.now + 11 ≤ length out.old }
    ensures { Put (named words.now n) at out.old result out.new × (result ≤ at + length words.now + 11) }
{
    let after_words = put(out, at, words);
    let after_number = put_number(out, after_words, n);
    put(out, after_number, b"\n")
}

// Puts a fraction as it was given.
pub fn put_fraction(out: &mut [u8], at: usize, f: Fraction) -> usize
    requires { at + 21 ≤ length out.old }
    ensures { Put (shown f) at out.old result out.new × (result ≤ at + 21) }
{
    let after_num = put_number(out, at, f.num);
    let after_bar = put(out, after_num, b"/");
    put_number(out, after_bar, f.den)
}
