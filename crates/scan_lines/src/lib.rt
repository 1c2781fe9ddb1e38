// The scan: a file parsed, a stream opened, its observations inserted up to the first refusal, and the lines about it as text.
#![tactic(auto)]

ghost use Rattle.entries.specs.Entry.{entries_of};
ghost use Rattle.scan_lines.specs.Promises.{Promises};
ghost use Rattle.scan_lines.specs.Report.{ReportPost};

use greenwald_khanna::Stream;
use refusal::Refusal;
use scan_text::Line;

// Runs the scan in a file, whose summary stands in `rows`, and puts the lines about it into `out`. Answers the length of the text.
pub fn report(bytes: &[u8], rows: &mut [[u32; 3]], out: &mut [u8; 4096]) -> usize
    ensures { ReportPost bytes.now (entries_of rows.old) out.old result (entries_of rows.new) out.new }
{
    let parsed = scan_file::parse(bytes);
    let Ok(layout) = parsed else {
        return scan_text::spell(Line::FileRefused(Refusal::number_in(parsed)), out, 0);
    };
    let opened = Stream::open(layout.epsilon, rows);
    let Ok(first) = opened else {
        return scan_text::spell(Line::OpenRefused(Refusal::number_in(opened)), out, 0);
    };
    let ran = scan_insert::insert_all(first, layout, bytes, rows);
    scan_write::write_scan(ran, layout, bytes, rows, out)
}

// What is shown of the report. The theorems are in proofs/; this contract states them, so that none can go missing.
pub fn promises()
    ensures { Promises }
{}
