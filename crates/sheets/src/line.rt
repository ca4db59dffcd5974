// The sheet that a line tells.
ghost use Rattle.std.specs.Prelude.{◌≡◌, IfOk};
ghost use Rattle.std.specs.Option.{option_map};
ghost use Rattle.comparison.specs.Words.{words};
ghost use Rattle.sheets.specs.Sheets.{bytes_of, count_of, with_copies, told};

use comparison::first_words;
use hex::{FromHex, FromHexError};
use std::alloc::{AllocError, Global};

// The bytes of some hexadecimal digits; none for other words.
fn bytes(alloc: Global, digits: &str) -> Result<Option<Vec<u8>>, AllocError>
    ensures { IfOk result (λ r. option_map (λ s. s.items) r ≡ bytes_of digits.now) }
{
    match hex::decode(alloc, digits) {
        Ok(bytes) => Ok(Some(bytes)),
        Err(FromHexError::OutOfMemory) => Err(AllocError),
        Err(_) => Ok(None),
    }
}

// The number that four digits write.
fn count(digits: &str) -> Option<u16>
    ensures { result ≡ count_of digits.now }
{
    <[u8; 2]>::from_hex(digits).ok().map(u16::from_be_bytes)
}

// The bytes of some digits, and after them so many copies of others.
fn bytes_with_copies(
    alloc: Global,
    digits: &str,
    copies: &str,
    part: &str,
) -> Result<Option<Vec<u8>>, AllocError>
    ensures { IfOk result (λ r. option_map (λ s. s.items) r ≡ with_copies digits.now (count_of copies.now) part.now) }
{
    let Some(copies) = count(copies) else {
        return Ok(None);
    };
    let part = part.repeat(alloc, copies.into())?;
    let mut all = String::new(alloc);
    all.push_str(digits)?;
    all.push_str(part.as_str())?;
    bytes(alloc, all.as_str())
}

// The sheet that a line tells; none where it has another form.
pub fn read(alloc: Global, line: &str) -> Result<Option<Vec<u8>>, AllocError>
    ensures { IfOk result (λ r. option_map (λ s. s.items) r ≡ told (words line.now)) }
{
    let (name, digits, copies, part, more) = first_words(line);
    if name != Some("sheet") {
        return Ok(None);
    }
    let Some(digits) = digits else {
        return Ok(Some(Vec::new(alloc)));
    };
    let Some(copies) = copies else {
        return bytes(alloc, digits);
    };
    match (part, more) {
        (Some(part), None) => bytes_with_copies(alloc, digits, copies, part),
        _ => Ok(None),
    }
}
