// The report of a sheet, for a caller outside.
ghost use Rattle.std.specs.Prelude.{◌≡◌, length};
ghost use Rattle.report.specs.Report.{report};
ghost use Rattle.exports.specs.Reports.{filled};

use report::region::Region;
use report::report_sheet;

// Writes the report of a sheet at the start of a buffer, as much of it as there is room for, and leaves the rest of the buffer. Answers the
// length of the whole report, so that a caller sees whether it is all there. It uses no memory but the buffer and the stack.
#[unsafe(no_mangle)]
pub extern "C" fn coef_report(sheet: &[u8], out: &mut [u8]) -> usize
    ensures length { result ≡ length (report sheet.now) }
    ensures written { out.new ≡ filled (report sheet.now) out.old }
{
    let mut region = Region::new(out);
    let Ok(length) = report_sheet(sheet, &mut region);
    length
}
