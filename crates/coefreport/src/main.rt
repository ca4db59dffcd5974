// Reads a sheet from standard input and prints its report. The status is 0 whatever the sheet says; it is another where memory, the input or
// the output fails.
#![tactic(auto)]

ghost use Rattle.std.specs.Prelude.{◌≡◌, IfOk, IfSome, take};
ghost use Rattle.report.specs.Report.{report};

use report::printer::Printer;
use report::report_sheet;
use sheet::opening::LONGEST;
use std::alloc::Global;
use std::io::{self, BufWriter, Read};

// Reads the sheet that an input holds: of one that is too long 32,769 bytes, one more than the longest has. They have the same report.
fn read_sheet<R: Read + Drop>(alloc: Global, input: R) -> io::Result<Vec<u8>>
    ensures bytes { IfOk result (λ sheet. IfSome (R.remaining input) (λ held. sheet.items ≡ take 32769 held)) }
    ensures reported { IfOk result (λ sheet. IfSome (R.remaining input) (λ held. report sheet.items ≡ report held)) }
{
    let mut sheet = Vec::new(alloc);
    input.take(LONGEST as u64 + 1).read_to_end(&mut sheet)?;
    Ok(sheet)
}

fn main(rt: HostRuntime) -> io::Result<()> {
    let sheet = read_sheet(rt.alloc(), rt.stdin())?;
    let mut out = Printer::new(BufWriter::new(rt.alloc(), rt.stdout())?);
    report_sheet(&sheet, &mut out)?;
    out.flush()
}
