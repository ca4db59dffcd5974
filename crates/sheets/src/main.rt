// Prints the reports of the sheets that the lines of standard input tell.
//
// A line `sheet 0103` tells the bytes of these hexadecimal digits, `sheet` alone no bytes, and `sheet 0103 7FFE 00` the bytes of the first
// digits and after them so many copies of the last, the count in four hexadecimal digits. Lines that begin with `#` are printed as they are.
#![tactic(auto)]

ghost use Rattle.std.specs.Prelude.{◌≡◌, ◌++◌, None};
ghost use Rattle.std.specs.Option.{option_map};
ghost use Rattle.calls.specs.Lines.{newline};
ghost use Rattle.report.specs.Puts.{Puts};
ghost use Rattle.comparison.specs.Words.{words};
ghost use Rattle.sheets.specs.Sheets.{told, shown, shown_sheet};

use line::read;
use report::printer::Printer;
use report::{Sink, report_sheet};
use std::io;

mod line;

// Puts a text, and after it the end of the line.
fn put_line<S: Sink>(text: &str, out: &mut S) -> Result<(), S::Refusal>
    ensures { Puts S.takes out.old out.new (text.now ++ newline) result }
{
    out.put(text.as_bytes())?;
    out.put(b"\n")
}

// Says of a line that it tells no sheet.
fn put_no_sheet<S: Sink>(line: &str, out: &mut S) -> Result<(), S::Refusal>
    ensures { Puts S.takes out.old out.new (shown_sheet line.now None) result }
{
    out.put(b"not a sheet: ")?;
    put_line(line, out)
}

// Puts a comment as it is, or the report of the sheet that a line tells; says so of a line that tells none. An error is the sink's own: what
// was put by then is a beginning.
fn show<S: Sink>(line: &str, sheet: Option<&[u8]>, out: &mut S) -> Result<(), S::Refusal>
    requires { option_map (λ s. s.now) sheet ≡ told (words line.now) }
    ensures { Puts S.takes out.old out.new (shown line.now) result }
{
    if line.starts_with('#') {
        return put_line(line, out);
    }
    let Some(sheet) = sheet else {
        return put_no_sheet(line, out);
    };
    report_sheet(sheet, out)?;
    Ok(())
}

fn main(rt: HostRuntime) -> io::Result<()> {
    let text = io::read_to_string(rt.alloc(), rt.stdin())?;
    let mut out = Printer::new(rt.stdout());
    for line in text.lines() {
        let sheet = read(rt.alloc(), line)?;
        show(line, sheet.as_deref(), &mut out)?;
    }
    out.flush()
}
