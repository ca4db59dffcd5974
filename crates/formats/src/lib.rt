// The formats of numbers that a sheet may name, each in one place: its number in a header, its word, and the meaning of its arithmetic.
#![tactic(auto)]

ghost use Rattle.std.specs.Prelude.{◌≡◌, Some, option_map};
ghost use Rattle.formats.specs.Formats.{format_of};
ghost use Rattle.formats.specs.Words.{told_format, format_name, Names};

use scientific::precision::Precision;
use std::fmt;
use std::str::FromStr;

#[derive(Clone, Copy, Debug, PartialEq, Eq)]
pub enum Format {
    Binary64,
    // decimal with so many digits
    Decimal(Precision),
}

// A word that names none of the formats.
#[derive(Clone, Copy, Debug, PartialEq, Eq)]
pub struct NotAFormat;

impl Format {
    // The format with a number: 1 is binary64, 2 decimal with eight digits, and 4 to 7 decimal with so many; none has another.
    pub fn of_number(number: u8) -> Option<Format>
        ensures { option_map told_format result ≡ format_of number }
    {
        match number {
            1 => Some(Format::Binary64),
            2 => Some(Format::Decimal(Precision { digits: 8 })),
            4..=7 => Some(Format::Decimal(Precision { digits: number })),
            _ => None,
        }
    }
}

impl fmt::Display for Format {
    ghost output = { λ f. Some (format_name f) };

    fn fmt<W: fmt::Write>(&self, f: &mut fmt::Formatter<W>) -> fmt::Result {
        match self {
            Format::Binary64 => write!(f, "binary64"),
            Format::Decimal(precision) => write!(f, "decimal{}", precision.digits),
        }
    }
}

impl FromStr for Format {
    type Err = NotAFormat;

    ghost from_str_gives = { Names };

    #[tactic(auto, using(crate::proofs::Words::another, std::proofs::lemmas::Fmt::decimal_digit))]
    fn from_str(word: &str) -> Result<Format, NotAFormat> {
        match word {
            "binary64" => Ok(Format::Binary64),
            "decimal4" => Ok(Format::Decimal(Precision { digits: 4 })),
            "decimal5" => Ok(Format::Decimal(Precision { digits: 5 })),
            "decimal6" => Ok(Format::Decimal(Precision { digits: 6 })),
            "decimal7" => Ok(Format::Decimal(Precision { digits: 7 })),
            "decimal8" => Ok(Format::Decimal(Precision { digits: 8 })),
            _ => Err(NotAFormat),
        }
    }
}
