// A pattern: the eight bytes that a number is written as, shown and read as sixteen upper-case hexadecimal digits.
#![tactic(auto)]

ghost use lib.Ieee.{binary64};
ghost use Rattle.std.specs.Prelude.{◌≡◌, ◌<◌, [], ◌∷◌, ◌++◌, true, Some, to_bits};
ghost use Rattle.std.specs.Fmt.{digit_glyph};
ghost use Rattle.std.specs.Float.{NotNan};
ghost use Rattle.std.specs.Int.{w16, w32, w64, to_be_bytes, cast_unsigned};
ghost use Rattle.patterns.specs.Patterns.{digit_value, byte_value, Reads, pattern_text};

use arrayvec::ArrayString;
use std::fmt;
use std::str::FromStr;

#[derive(Clone, Copy, Debug, PartialEq, Eq)]
pub struct Pattern {
    pub bytes: [u8; 8],
}

// A word that is not sixteen upper-case hexadecimal digits.
#[derive(Clone, Copy, Debug, PartialEq, Eq)]
pub struct NotAPattern;

impl Pattern {
    // The pattern of a number of binary64: its bits, the highest byte first.
    pub fn of_binary64(x: f64) -> Pattern
        requires { NotNan x }
        ensures { result.bytes ≡ to_be_bytes w64 (to_bits binary64 x) }
    {
        Pattern {
            bytes: x.to_be_bytes(),
        }
    }

    // The pattern of a decimal number, significand × 10^exponent: both in two's complement, the highest byte first, and two zero bytes.
    pub fn of_decimal(significand: i32, exponent: i16) -> Pattern
        ensures { result.bytes ≡ to_be_bytes w32 (cast_unsigned w32 significand) ++ (to_be_bytes w16 (cast_unsigned w16 exponent) ++ (0 ∷ 0 ∷ [])) }
    {
        let [m0, m1, m2, m3] = significand.to_be_bytes();
        let [e0, e1] = exponent.to_be_bytes();
        Pattern {
            bytes: [m0, m1, m2, m3, e0, e1, 0, 0],
        }
    }

    // The sixteen digits that it is shown by.
    #[tactic(auto, using(crate::proofs::Digits::byte_shown, std::proofs::lemmas::Str::encode_ascii))]
    pub fn text(&self) -> ArrayString<16>
        ensures { result.bytes ≡ pattern_text self.now }
    {
        let mut text = ArrayString::new();
        // by an index, as the project's rules have it for the digits of a pattern
        for i in 0..8 {
            let byte = self.bytes[i];
            text.push(glyph(byte / 16));
            text.push(glyph(byte % 16));
        }
        text
    }
}

impl fmt::Display for Pattern {
    ghost output = { λ p. Some (pattern_text p) };

    fn fmt<W: fmt::Write>(&self, f: &mut fmt::Formatter<W>) -> fmt::Result {
        f.write_str(self.text().as_str())
    }
}

// The character of a hexadecimal digit, in upper case.
fn glyph(value: u8) -> char
    requires { value < 16 }
    ensures glyph { result ≡ digit_glyph true value }
    ensures ascii { result < 128 }
{
    if value < 10 {
        char::from(b'0' + value)
    } else {
        char::from(b'A' + (value - 10))
    }
}

// The value of a hexadecimal digit, in upper case alone; the library's `to_digit` takes both cases.
fn digit(c: u8) -> Option<u8>
    ensures { result ≡ digit_value c }
{
    match c {
        b'0'..=b'9' => Some(c - b'0'),
        b'A'..=b'F' => Some(c - b'A' + 10),
        _ => None,
    }
}

// The byte that two digits stand for.
fn byte_of(high: u8, low: u8) -> Option<u8>
    ensures { result ≡ byte_value high low }
{
    Some(digit(high)? * 16 + digit(low)?)
}

impl FromStr for Pattern {
    type Err = NotAPattern;

    ghost from_str_gives = { Reads };

    fn from_str(word: &str) -> Result<Pattern, NotAPattern> {
        let digits = word.as_bytes();
        if digits.len() != 16 {
            return Err(NotAPattern);
        }
        let mut bytes = [0; 8];
        for (i, byte) in bytes.iter_mut().enumerate() {
            *byte = byte_of(digits[2 * i], digits[2 * i + 1]).ok_or(NotAPattern)?;
        }
        Ok(Pattern { bytes })
    }
}
