// Why a sheet is not read on. The fault of a pattern is carried by that of its slip, which is carried by that of the sheet.
ghost use Rattle.std.specs.Prelude.{◌≡◌};
ghost use Rattle.sheet.specs.Faults.{told_slip_fault, told_fault, told_cause};
ghost use Rattle.sheet.specs.declared.fault.SlipFault.TheVariants.{Number};
ghost use Rattle.sheet.specs.declared.fault.SheetFault.TheVariants.{Slip};

use crate::place::Place;
use arithmetic::cause::Cause;

// A pattern that is no number of the arithmetic, at its field.
#[derive(Clone, Copy, PartialEq, Eq, Debug)]
pub struct NumberFault {
    pub place: Place,
    pub cause: Cause,
}

#[derive(Clone, Copy, PartialEq, Eq, Debug)]
pub enum SlipFault {
    // no slip has this map
    Map(Place),
    // the sheet ends before the slip does; the place is that of the map
    Short(Place),
    Number(NumberFault),
}

#[derive(Clone, Copy, PartialEq, Eq, Debug)]
pub enum SheetFault {
    // the sheet has not 2 to 32,768 bytes
    Length,
    // the first byte names no arithmetic
    Format,
    // the second byte is not from 1 to 64
    HighestOrder,
    Slip(SlipFault),
}

impl From<NumberFault> for SlipFault {
    ghost from_gives = { λ f r. r ≡ Number f };

    fn from(fault: NumberFault) -> SlipFault {
        SlipFault::Number(fault)
    }
}

impl From<SlipFault> for SheetFault {
    ghost from_gives = { λ f r. r ≡ Slip f };

    fn from(fault: SlipFault) -> SheetFault {
        SheetFault::Slip(fault)
    }
}

impl SlipFault {
    fn number(self) -> u8
        ensures { result ≡ (told_slip_fault self).number }
    {
        match self {
            SlipFault::Map(_) => 16,
            SlipFault::Number(_) => 17,
            SlipFault::Short(_) => 19,
        }
    }

    fn place(self) -> Place
        ensures { result ≡ (told_slip_fault self).place }
    {
        match self {
            SlipFault::Map(place) | SlipFault::Short(place) => place,
            SlipFault::Number(fault) => fault.place,
        }
    }
}

impl SheetFault {
    pub fn number(self) -> u8
        ensures { result ≡ (told_fault self).number }
    {
        match self {
            SheetFault::Length => 13,
            SheetFault::Format => 14,
            SheetFault::HighestOrder => 15,
            SheetFault::Slip(fault) => fault.number(),
        }
    }

    pub fn place(self) -> Place
        ensures { result ≡ (told_fault self).place }
    {
        match self {
            SheetFault::Length | SheetFault::Format => Place { slip: 0, byte: 0 },
            SheetFault::HighestOrder => Place { slip: 0, byte: 1 },
            SheetFault::Slip(fault) => fault.place(),
        }
    }

    // Why a pattern is no number, if that is the fault.
    pub fn cause(self) -> Option<Cause>
        ensures { told_cause result ≡ (told_fault self).cause }
    {
        match self {
            SheetFault::Slip(SlipFault::Number(fault)) => Some(fault.cause),
            _ => None,
        }
    }
}
