// Why a report call writes nothing.
ghost use Rattle.std.specs.Prelude.{◌≡◌};
ghost use Rattle.report.specs.Calls.{unreported_number};
ghost use Rattle.report.specs.declared.refusal.Unreported.TheVariants.{NoRoom, Faulty};

use sheet::fault::SheetFault;

// 18: the line buffer has not 128 bytes. It is no fault of the sheet.
#[derive(Clone, Copy, PartialEq, Eq, Debug)]
pub struct SmallBuffer;

#[derive(Clone, Copy, PartialEq, Eq, Debug)]
pub enum Unreported {
    NoRoom(SmallBuffer),
    // the next slip has a fault
    Faulty(SheetFault),
}

impl From<SmallBuffer> for Unreported {
    ghost from_gives = { λ b r. r ≡ NoRoom b };

    fn from(small: SmallBuffer) -> Unreported {
        Unreported::NoRoom(small)
    }
}

impl From<SheetFault> for Unreported {
    ghost from_gives = { λ f r. r ≡ Faulty f };

    fn from(fault: SheetFault) -> Unreported {
        Unreported::Faulty(fault)
    }
}

impl Unreported {
    // The number of the refusal: 18, or that of the fault.
    pub fn number(self) -> u8
        ensures { result ≡ unreported_number self }
    {
        match self {
            Unreported::NoRoom(SmallBuffer) => 18,
            Unreported::Faulty(fault) => fault.number(),
        }
    }
}
