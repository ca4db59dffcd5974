// The lines of a report, as texts of a fixed capacity.
ghost use Rattle.std.specs.Prelude.{◌≡◌, ◌+◌, ◌<◌, ◌≤◌, ◌++◌, length, drop};
ghost use Rattle.arrayvec.specs.ArrayString.{array_string_len};
ghost use Rattle.calls.specs.Lines.{newline, answer_text};
ghost use Rattle.sheet.specs.Contents.{whole};
ghost use Rattle.sheet.specs.Faults.{told_fault};
ghost use Rattle.report.specs.Text.{fault_line, ending_line};
ghost use Rattle.report.specs.Workings.{working_text};
ghost use Rattle.slips.specs.Workings.{told_worked, IsAnswered};

use arrayvec::ArrayString;
use bench::refusal::push_detail;
use calls::answer::Answer;
use itoa::Buffer;
use sheet::fault::SheetFault;
use slips::worked::Worked;

// How many bytes a report call asks of a line buffer. A slip has at most two lines; as texts they have at most 48 bytes each.
pub(crate) const LEAST_BUFFER: usize = 128;

// The lines of one report call.
pub(crate) type Lines = ArrayString<LEAST_BUFFER>;

// Appends the line of an answer.
fn push_answer(lines: &mut Lines, answer: Answer)
    requires { array_string_len lines.old + 48 ≤ 128 }
    ensures line { lines.new.bytes ≡ lines.old.bytes ++ (answer_text answer ++ newline) }
    ensures room { array_string_len lines.new ≤ array_string_len lines.old + 48 }
    ensures some { 0 < array_string_len lines.new }
{
    lines.push_str(answer.text().as_str());
    lines.push('\n');
}

// The lines of what the calls of a slip answered.
pub(crate) fn lines_of(worked: Worked) -> Lines
    requires { IsAnswered worked }
    ensures lines { result.bytes ≡ working_text (told_worked worked) }
    ensures some { 0 < array_string_len result }
{
    let mut lines = Lines::new();
    if let Some(answer) = worked.zero {
        push_answer(&mut lines, answer);
    }
    if let Some(answer) = worked.task {
        push_answer(&mut lines, answer);
    }
    lines
}

// The line of a fault.
pub(crate) fn line_of_fault(fault: SheetFault) -> Lines
    ensures { result.bytes ≡ fault_line (told_fault fault) }
{
    let mut lines = Lines::new();
    lines.push_str("F ");
    lines.push_str(Buffer::new().format(fault.number()));
    let place = fault.place();
    push_detail(&mut lines, place.slip);
    push_detail(&mut lines, place.byte);
    if let Some(cause) = fault.cause() {
        push_detail(&mut lines, cause.number().into());
    }
    lines.push('\n');
    lines
}

// The line after the last slip.
pub(crate) fn line_of_end(slips: usize) -> Lines
    ensures { result.bytes ≡ ending_line (whole slips) }
{
    let mut lines = Lines::new();
    lines.push_str("end ");
    lines.push_str(Buffer::new().format(slips));
    lines.push('\n');
    lines
}

// Writes a text at the start of a buffer, and answers its length.
pub(crate) fn write(buffer: &mut [u8], text: &str) -> usize
    requires { length text.now ≤ length buffer.old }
    ensures written { buffer.new ≡ text.now ++ drop (length text.now) buffer.old }
    ensures length { result ≡ length text.now }
{
    buffer[..text.len()].copy_from_slice(text.as_bytes());
    text.len()
}
