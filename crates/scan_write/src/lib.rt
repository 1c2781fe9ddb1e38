// The lines about a scan whose observations were inserted, as text.
// The place travels beside the buffer, as in `scan_put`.
#![tactic(auto)]

ghost use Rattle.std.specs.Prelude.{◌≡◌, map, ◌+◌, ◌*◌, ◌≤◌, length};
ghost use Rattle.entries.specs.Entry.{entries_of};
ghost use Rattle.scan_file.specs.Layout.{fractions_at};
ghost use Rattle.scan_put.specs.Put.{Put};
ghost use Rattle.scan_text.specs.Lines.{line_bytes};
ghost use Rattle.scan_insert.specs.Inserts.{end_of};
ghost use Rattle.scan_write.specs.ScanLines.{fraction_line, scan_lines, texts};

use fraction::Fraction;
use greenwald_khanna::Stream;
use refusal::Refusal;
use scan_file::Layout;
use scan_insert::Ran;
use scan_text::Line;

// A fraction's line: its quantile, or the number of the quantile's refusal.
fn line_of(stream: Stream, rows: &[[u32; 3]], phi: Fraction) -> Line
    ensures { result ≡ fraction_line stream (entries_of rows.now) phi }
{
    let answer = greenwald_khanna::quantile(stream, rows, phi);
    let Ok(v) = answer else {
        return Line::Refused(phi, Refusal::number_in(answer));
    };
    Line::Value(phi, v)
}

// The lines of the fractions, from a place of the text on.
fn write_fractions(
    stream: Stream,
    layout: Layout,
    bytes: &[u8],
    rows: &[[u32; 3]],
    out: &mut [u8],
    from: usize,
) -> usize
    requires { from + layout.fractions * line_bytes ≤ length out.old }
    ensures { Put (texts (map (fraction_line stream (entries_of rows.now)) (fractions_at bytes.now layout.fractions))) from out.old result out.new }
{
    let mut at = from;
    for i in 0..layout.fractions {
        at = scan_text::spell(line_of(stream, rows, layout.fraction(bytes, i)), out, at);
    }
    at
}

// The lines of a scan whose observations were inserted.
pub fn write_scan(
    ran: Ran,
    layout: Layout,
    bytes: &[u8],
    rows: &[[u32; 3]],
    out: &mut [u8],
) -> usize
    requires { (3 + layout.fractions) * line_bytes ≤ length out.old }
    ensures { Put (texts (scan_lines (end_of ran (entries_of rows.now)) (fractions_at bytes.now layout.fractions))) 0 out.old result out.new }
{
    let stream = ran.stream;
    let after_taken = scan_text::spell(Line::Taken(stream.n), out, 0);
    let mut at = scan_text::spell(Line::Held(stream.held), out, after_taken);
    if let Some(number) = ran.refused {
        at = scan_text::spell(Line::InsertRefused(number), out, at);
    }
    write_fractions(stream, layout, bytes, rows, out, at)
}
