// Reporting a whole sheet to a sink.
ghost use Rattle.std.specs.Prelude.{◌≡◌, ◌*◌, ◌≤◌, length, None, IfOk, nat_lt};
ghost use Rattle.arithmetic.specs.Setting.{Stays};
ghost use Rattle.bench.specs.Benches.{making_of, state_of, Keeps};
ghost use Rattle.calls.specs.Lines.{lines};
ghost use Rattle.sheet.specs.Contents.{contents};
ghost use Rattle.slips.specs.Book.{book_of};
ghost use Rattle.report.specs.Puts.{Puts};
ghost use Rattle.report.specs.Report.{report};
ghost use Rattle.report.specs.Text.{ending_line, text_from, text};
ghost use Rattle.report.specs.Law.{ReportLaw};
ghost use Rattle.report.specs.Steps.{lines_answered, is_slip, ending_by};
ghost use Rattle.report.specs.Calls.{told_kept, report_state, next_reading, slip_step};

use crate::lines::{LEAST_BUFFER, line_of_fault};
use crate::report::Report;
use crate::sink::Sink;
use arithmetic::Arithmetic;
use bench::Bench;
use binary64::Binary64;
use decimal::Decimal;
use formats::Format;
use row::cell::Cell;
use row::empty;
use sheet::Sheet;

// Puts a text, and answers its length.
fn put_text<S: Sink>(text: &[u8], out: &mut S) -> Result<usize, S::Refusal>
    ensures written { Puts S.takes out.old out.new text.now result }
    ensures length { IfOk result (λ n. n ≡ length text.now) }
{
    out.put(text)?;
    Ok(text.len())
}

// Puts the lines of the next slip of a sheet, and answers their length: 0 at the sheet's end and at a fault.
#[tactic(auto, using(crate::proofs::Loop::written_text, crate::proofs::Loop::refused_none))]
fn write_slip<A: Arithmetic, S: Sink>(
    report: &mut Report<'_>,
    bench: &mut Bench<'_, A>,
    arith: &mut A,
    buffer: &mut [u8],
    out: &mut S,
) -> Result<usize, S::Refusal>
    requires law { A.lawful arith.old }
    requires unmet { report.old.fault ≡ None }
    requires room { 128 ≤ length buffer.old }
    ensures lines { Puts S.takes out.old out.new (lines_answered (slip_step (A.setting arith.old) report.old bench.old).answer) result }
    ensures length { IfOk result (λ n. n ≡ length (lines_answered (slip_step (A.setting arith.old) report.old bench.old).answer)) }
    ensures slip { IfOk result (λ n. nat_lt 0 n ≡ is_slip (next_reading (A.setting arith.old) report.old)) }
    ensures few { IfOk result (λ n. n ≤ length buffer.old) }
    ensures then { report_state (A.setting arith.old) report.new bench.new ≡ (slip_step (A.setting arith.old) report.old bench.old).then }
    ensures bytes { report.new.reader.bytes.now ≡ report.old.reader.bytes.now }
    ensures keeps { Keeps (A.setting arith.old) bench.old bench.new }
    ensures arith { Stays A.setting A.lawful arith.old arith.new }
{
    let Ok(length) = report.next_slip(bench, arith, buffer) else {
        return Ok(0);
    };
    if length == 0 {
        return Ok(0);
    }
    put_text(&buffer[..length], out)
}

// Puts the lines of all slips of a sheet, and answers the report where it ends, and their length.
fn write_slips<'s, A: Arithmetic, S: Sink>(
    sheet: Sheet<'s>,
    bench: &mut Bench<'_, A>,
    arith: &mut A,
    out: &mut S,
) -> Result<(Report<'s>, usize), S::Refusal>
    requires law { A.lawful arith.old }
    ensures lines { Puts S.takes out.old out.new (lines (A.setting arith.old).meaning (book_of (contents (A.setting arith.old).meaning sheet.entry.bytes.now).slips (making_of (A.setting arith.old) bench.old) (state_of (A.setting arith.old) bench.old))) result }
    ensures length { IfOk result (λ r. r.1 ≡ length (lines (A.setting arith.old).meaning (book_of (contents (A.setting arith.old).meaning sheet.entry.bytes.now).slips (making_of (A.setting arith.old) bench.old) (state_of (A.setting arith.old) bench.old)))) }
    ensures few { IfOk result (λ r. r.1 ≤ 128 * 32768) }
    ensures ending { IfOk result (λ r. ending_by r.0.reader.slips (told_kept r.0.fault) ≡ (contents (A.setting arith.old).meaning sheet.entry.bytes.now).ending) }
{
    let mut report = Report::new(sheet);
    let mut buffer = [0; LEAST_BUFFER];
    let mut all = 0;
    for turn in 0..sheet.bytes.len() {
        let length = write_slip(&mut report, bench, arith, &mut buffer, out)?;
        if length == 0 {
            return Ok((report, all));
        }
        all += length;
    }
    Ok((report, all))
}

// Puts the last line of a report, and answers its length.
#[tactic(auto, using(crate::proofs::Loop::written_text))]
fn write_last<S: Sink>(report: &Report<'_>, out: &mut S) -> Result<usize, S::Refusal>
    ensures line { Puts S.takes out.old out.new (ending_line (ending_by report.now.reader.slips (told_kept report.now.fault))) result }
    ensures length { IfOk result (λ n. n ≡ length (ending_line (ending_by report.now.reader.slips (told_kept report.now.fault)))) }
    ensures few { IfOk result (λ n. n ≤ 128) }
{
    let mut buffer = [0; LEAST_BUFFER];
    match report.last(&mut buffer) {
        Ok(length) => put_text(&buffer[..length], out),
        Err(_) => unreachable!(),
    }
}

// Reports the slips of a sheet on a bench, and answers the length of what it puts.
#[tactic(auto, using(crate::proofs::Putting::some_of_first))]
fn report_slips<A: Arithmetic, S: Sink>(
    sheet: Sheet<'_>,
    bench: &mut Bench<'_, A>,
    arith: &mut A,
    out: &mut S,
) -> Result<usize, S::Refusal>
    requires law { A.lawful arith.old }
    ensures written { Puts S.takes out.old out.new (text_from (making_of (A.setting arith.old) bench.old) (state_of (A.setting arith.old) bench.old) (contents (A.setting arith.old).meaning sheet.entry.bytes.now)) result }
    ensures length { IfOk result (λ n. n ≡ length (text_from (making_of (A.setting arith.old) bench.old) (state_of (A.setting arith.old) bench.old) (contents (A.setting arith.old).meaning sheet.entry.bytes.now))) }
{
    let (report, slips) = write_slips(sheet, bench, arith, out)?;
    let last = write_last(&report, out)?;
    Ok(slips + last)
}

// The number of the bench of a sheet.
const BENCH: u16 = 1;

// Reports a sheet whose header is accepted, in the arithmetic that it names; the bench works in the first K + 1 of the cells.
fn report_opened<A: Arithmetic, S: Sink>(
    sheet: Sheet<'_>,
    arith: &mut A,
    cells: &mut [Cell<A::Plain>],
    out: &mut S,
) -> Result<usize, S::Refusal>
    requires law { A.lawful arith.old }
    requires cells { 65 ≤ length cells.old }
    ensures written { Puts S.takes out.old out.new (text (A.setting arith.old).meaning sheet.entry.highest_order sheet.entry.bytes.now) result }
    ensures length { IfOk result (λ n. n ≡ length (text (A.setting arith.old).meaning sheet.entry.highest_order sheet.entry.bytes.now)) }
{
    let row = &mut cells[..=sheet.highest_order as usize];
    let mut bench = Bench::make(arith, row, BENCH);
    report_slips(sheet, &mut bench, arith, out)
}

// Reports a sheet to a sink, and answers the report's length: one line where its header is refused, else the lines of its slips and a last
// one. What the lines say is true of the zeros that the sheet has put in by then. An error is the sink's own: it has refused, and what it has
// taken by then is a beginning of the report.
#[tactic(auto, using(crate::proofs::TheLaw::report_law))]
pub fn report_sheet<S: Sink>(sheet: &[u8], out: &mut S) -> Result<usize, S::Refusal>
    ensures written { Puts S.takes out.old out.new (report sheet.now) result }
    ensures length { IfOk result (λ n. n ≡ length (report sheet.now)) }
    ensures law { ReportLaw sheet.now }
{
    match Sheet::open(sheet) {
        Err(fault) => put_text(line_of_fault(fault).as_str().as_bytes(), out),
        Ok(sheet) => match sheet.format {
            Format::Binary64 => {
                let mut cells = [empty(&Binary64); 65];
                report_opened(sheet, &mut Binary64, &mut cells, out)
            }
            Format::Decimal(precision) => {
                let mut decimal = Decimal::from(precision);
                let mut cells = [empty(&decimal); 65];
                report_opened(sheet, &mut decimal, &mut cells, out)
            }
        },
    }
}
