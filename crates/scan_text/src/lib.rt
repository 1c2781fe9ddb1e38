// The lines that the scan program writes, and their text.
// The place travels beside the buffer, as in `scan_put`.
#![tactic(auto)]

ghost use Rattle.std.specs.Prelude.{◌+◌, ◌≤◌, length};
ghost use Rattle.scan_put.specs.Put.{Put};
ghost use Rattle.scan_text.specs.Lines.{text_of, line_bytes};

use fraction::Fraction;

// A line: which one, and its numbers.
#[derive(Clone, Copy)]
pub enum Line {
    FileRefused(u32),
    OpenRefused(u32),
    Taken(u32),
    Held(u32),
    InsertRefused(u32),
    Value(Fraction, u32),
    Refused(Fraction, u32),
}

// Puts a line.
pub fn spell(line: Line, out: &mut [u8], at: usize) -> usize
    requires { at + line_bytes ≤ length out.old }
    ensures { Put (text_of line) at out.old result out.new × (result ≤ at + line_bytes) }
{
    match line {
        Line::FileRefused(n) => scan_put::put_named(out, at, b"file refused ", n),
        Line::OpenRefused(n) => scan_put::put_named(out, at, b"open refused ", n),
        Line::Taken(n) => scan_put::put_named(out, at, b"taken ", n),
        Line::Held(n) => scan_put::put_named(out, at, b"held ", n),
        Line::InsertRefused(n) => scan_put::put_named(out, at, b"insert refused ", n),
        Line::Value(f, v) => {
            let after_fraction = scan_put::put_fraction(out, at, f);
            scan_put::put_named(out, after_fraction, b" ", v)
        }
        Line::Refused(f, n) => {
            let after_fraction = scan_put::put_fraction(out, at, f);
            scan_put::put_named(out, after_fraction, b" refused ", n)
        }
    }
}
