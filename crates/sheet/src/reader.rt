// Reading a sheet on, slip by slip.
ghost use Rattle.std.specs.Prelude.{◌≡◌};
ghost use Rattle.sheet.specs.Layout.{reading};
ghost use Rattle.sheet.specs.Reading.{told_reading, Moved};

use crate::fault::SheetFault;
use crate::fields::read_slip;
use crate::place::Place;
use crate::sheet::Reader;
use crate::slip::Slip;
use arithmetic::Arithmetic;

impl<'s> Reader<'s> {
    // The count of slips that were read.
    pub fn slips(&self) -> usize
        ensures { result ≡ self.now.slips }
    {
        self.slips
    }

    // The next slip, or none at the sheet's end. A slip with a fault stays unread.
    pub fn next_slip<A: Arithmetic>(&mut self, arith: &A) -> Result<Option<Slip<'s>>, SheetFault>
        requires law { A.lawful arith.now }
        ensures answer { told_reading result self.new.at ≡ reading (A.setting arith.now).meaning self.old.bytes.now self.old.at self.old.slips }
        ensures moved { Moved result self.old.at self.old.slips self.new.at self.new.slips }
        ensures bytes { self.new.bytes.now ≡ self.old.bytes.now }
    {
        if self.at == self.bytes.len() {
            return Ok(None);
        }
        let place = Place {
            slip: self.slips + 1,
            byte: self.at,
        };
        let (slip, end) = read_slip(arith, self.bytes, place)?;
        self.at = end;
        self.slips += 1;
        Ok(Some(slip))
    }
}
