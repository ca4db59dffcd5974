// A sheet whose header is accepted, and the reader of its slips.
ghost use Rattle.std.specs.Prelude.{◌≡◌, ◌≤◌, Some, length, slice_index};
ghost use Rattle.formats.specs.Formats.{format_of};
ghost use Rattle.formats.specs.Words.{told_format};

use formats::Format;

// The bytes of a sheet, 2 to 32,768; the arithmetic that it names; and the highest order K, from 1 to 64.
#[derive(Clone, Copy)]
pub struct Sheet<'s> {
    pub bytes: &'s [u8],
    pub format: Format,
    pub highest_order: u8,

    ghost long: { 2 ≤ length bytes.now },
    ghost short: { length bytes.now ≤ 32768 },
    ghost least: { 1 ≤ highest_order },
    ghost most: { highest_order ≤ 64 },
    ghost named: { format_of (slice_index bytes.now 0) ≡ Some (told_format format) },
    ghost told: { slice_index bytes.now 1 ≡ highest_order },
}

// Where the reading of a sheet stands: the next byte to be read, and the count of slips before it.
#[derive(Drop)]
pub struct Reader<'s> {
    pub(crate) bytes: &'s [u8],
    pub(crate) at: usize,
    pub(crate) slips: usize,

    ghost within: { at ≤ length bytes.now },
    ghost counted: { slips ≤ at },
    ghost short: { length bytes.now ≤ 32768 },
}
