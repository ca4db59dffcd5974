// The refusal of a report call, in binary64.
use bench::Bench;
use binary64::Binary64;
use report::Report;
use row::empty;
use sheet::Sheet;
use std::io::{self, Write};

// A sheet in binary64 with the highest order 1 and one slip, which adds the zero 1.
const ONE_ZERO: [u8; 11] = [1, 1, 1, 0x3F, 0xF0, 0, 0, 0, 0, 0, 0];

// Prints the lines that a report call writes, or the number of its refusal.
fn show_slip(
    rt: &HostRuntime,
    report: &mut Report<'_>,
    bench: &mut Bench<'_, Binary64>,
    buffer: &mut [u8],
) -> io::Result<()> {
    match report.next_slip(bench, &mut Binary64, buffer) {
        Ok(length) => rt.stdout().write_all(&buffer[..length]),
        Err(unreported) => println!(rt; "R {}", unreported.number()),
    }
}

// 18: a line buffer of fewer than 128 bytes. The slip stays unread, so that the next call, with room, reports it.
pub fn of_report(rt: &HostRuntime) -> io::Result<()> {
    let sheet = match Sheet::open(&ONE_ZERO) {
        Ok(sheet) => sheet,
        Err(fault) => return println!(rt; "F {}", fault.number()),
    };
    let mut row = [empty(&Binary64); 2];
    let mut bench = Bench::make(&Binary64, &mut row, 1);
    let mut report = Report::new(sheet);
    show_slip(rt, &mut report, &mut bench, &mut [0; 127])?;
    show_slip(rt, &mut report, &mut bench, &mut [0; 128])
}
