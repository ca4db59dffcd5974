// Reporting a sheet slip by slip.
ghost use Rattle.std.specs.Prelude.{◌≡◌, ◌≤◌, length, None, IsOk, IfOk, OnErr, ◌↔◌};
ghost use Rattle.arithmetic.specs.Setting.{Stays};
ghost use Rattle.bench.specs.Benches.{making_of, Keeps};
ghost use Rattle.calls.specs.Cells.{Leaves};
ghost use Rattle.sheet.specs.Layout.{ended, reading};
ghost use Rattle.report.specs.Steps.{ending_by};
ghost use Rattle.report.specs.Text.{ending_line};
ghost use Rattle.report.specs.Calls.{told_kept, report_state, step_of, Answers, Written};

use crate::lines::{LEAST_BUFFER, line_of_end, line_of_fault, lines_of, write};
use crate::refusal::{SmallBuffer, Unreported};
use arithmetic::Arithmetic;
use bench::Bench;
use sheet::fault::SheetFault;
use sheet::{Reader, Sheet};
use slips::work::work_next;

// Where the report of a sheet stands: the reader of its slips, and the fault that was met, if one was.
#[derive(Drop)]
pub struct Report<'s> {
    reader: Reader<'s>,
    fault: Option<SheetFault>,
}

// Question 18: has the line buffer 128 bytes?
fn check_room(buffer: &[u8]) -> Result<(), SmallBuffer>
    ensures { IsOk result ↔ (128 ≤ length buffer.now) }
{
    if buffer.len() < LEAST_BUFFER {
        return Err(SmallBuffer);
    }
    Ok(())
}

impl<'s> Report<'s> {
    // A report before the first slip of a sheet.
    pub fn new(sheet: Sheet<'s>) -> Report<'s>
        ensures bytes { result.reader.bytes.now ≡ sheet.entry.bytes.now }
        ensures start { (result.reader.at ≡ 2) × (result.reader.slips ≡ 0) × (result.fault ≡ None) }
    {
        Report {
            reader: sheet.reader(),
            fault: None,
        }
    }

    // Reports the next slip, if the line buffer has 128 bytes: works it on the bench, writes its lines at the start of the buffer and
    // answers their length, 0 at the sheet's end. Where a fault is met, or was met before, nothing is written, and nothing changes but
    // that the fault is kept.
    #[tactic(auto, using(crate::proofs::Workings::stepped))]
    pub fn next_slip<A: Arithmetic>(
        &mut self,
        bench: &mut Bench<'_, A>,
        arith: &mut A,
        buffer: &mut [u8],
    ) -> Result<usize, Unreported>
        requires law { A.lawful arith.old }
        ensures answer { Answers result buffer.old buffer.new (step_of (A.setting arith.old) self.old bench.old (length buffer.old)).answer }
        ensures then { report_state (A.setting arith.old) self.new bench.new ≡ (step_of (A.setting arith.old) self.old bench.old (length buffer.old)).then }
        ensures some { IfOk result (λ n. n ≡ 0 → reading (A.setting arith.old).meaning self.old.reader.bytes.now self.old.reader.at self.old.reader.slips ≡ ended) }
        ensures bytes { self.new.reader.bytes.now ≡ self.old.reader.bytes.now }
        ensures cells { Leaves (making_of (A.setting arith.old) bench.old).K (step_of (A.setting arith.old) self.old bench.old (length buffer.old)).entries bench.old.row.now bench.new.row.now }
        ensures keeps { Keeps (A.setting arith.old) bench.old bench.new }
        ensures arith { Stays A.setting A.lawful arith.old arith.new }
    {
        check_room(buffer)?;
        if let Some(fault) = self.fault {
            return Err(fault.into());
        }
        match work_next(&mut self.reader, bench, arith) {
            Ok(Some(worked)) => Ok(write(buffer, lines_of(worked).as_str())),
            Ok(None) => Ok(0),
            Err(fault) => {
                self.fault = Some(fault);
                Err(fault.into())
            }
        }
    }

    // Writes the last line at the start of the line buffer, if that has 128 bytes, and answers its length: the fault that was met, or
    // else the count of slips.
    pub fn last(&self, buffer: &mut [u8]) -> Result<usize, SmallBuffer>
        ensures room { IsOk result ↔ (128 ≤ length buffer.old) }
        ensures written { IfOk result (λ n. Written (ending_line (ending_by self.now.reader.slips (told_kept self.now.fault))) n buffer.old buffer.new) }
        ensures small { OnErr result (buffer.new ≡ buffer.old) }
    {
        check_room(buffer)?;
        let lines = match self.fault {
            Some(fault) => line_of_fault(fault),
            None => line_of_end(self.reader.slips()),
        };
        Ok(write(buffer, lines.as_str()))
    }
}
