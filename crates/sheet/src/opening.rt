// Opening a sheet.
ghost use Rattle.std.specs.Prelude.{◌≡◌, IfOk};
ghost use Rattle.sheet.specs.Layout.{opening};
ghost use Rattle.sheet.specs.Reading.{told_opening};

use crate::fault::SheetFault;
use crate::sheet::{Reader, Sheet};
use formats::Format;

// The most bytes that a sheet may have.
pub const LONGEST: usize = 32768;

impl<'s> Sheet<'s> {
    // A sheet, if its header is accepted.
    pub fn open(bytes: &'s [u8]) -> Result<Sheet<'s>, SheetFault>
        ensures answer { told_opening (λ s. s.format) (λ s. s.highest_order) result ≡ opening bytes.now }
        ensures bytes { IfOk result (λ s. s.bytes.now ≡ bytes.now) }
    {
        if !(2..=LONGEST).contains(&bytes.len()) {
            return Err(SheetFault::Length);
        }
        let format = Format::of_number(bytes[0]).ok_or(SheetFault::Format)?;
        let highest_order = bytes[1];
        if !(1..=64).contains(&highest_order) {
            return Err(SheetFault::HighestOrder);
        }
        Ok(Sheet {
            bytes,
            format,
            highest_order,
        })
    }

    // A reader before the first slip.
    pub fn reader(self) -> Reader<'s>
        ensures { (result.bytes.now ≡ self.entry.bytes.now) × (result.at ≡ 2) × (result.slips ≡ 0) }
    {
        Reader {
            bytes: self.bytes,
            at: 2,
            slips: 0,
        }
    }
}
