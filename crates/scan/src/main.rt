// The scan program: reads a scan file from standard input, runs it over a fresh list of 4,096 zero triples, and writes the lines about it.
#![tactic(auto)]

use scan_file::Layout;

fn main() {
    // One byte more than the longest file, so that a longer one is seen.
    let mut file = [0u8; Layout::BYTES + 1];
    let n = io::read_full(0, &mut file);
    let mut rows = [[0u32; 3]; 4096];
    let mut text = io::buffer();
    let k = scan_lines::report(&file[..n], &mut rows, &mut text);
    io::write_all(1, &text[..k]);
}
