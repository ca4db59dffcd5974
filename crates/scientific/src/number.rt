// The numbers of the arithmetic.
ghost use Rattle.std.specs.Prelude.{◌≡◌, true, unsigned_abs};
ghost use Rattle.scientific.specs.Forms.{is_full, is_small};

// The least significand of eight digits, and the zeros behind the 1 of one.
pub(crate) const LEAST_SIGNIFICAND: u32 = 10_000_000;

pub(crate) const ZEROS_OF_ONE: u32 = 70;

// A significand M of up to eight digits and a count of zeros behind it, in units of 10^-70: so M × 10^e has e + 70 zeros. It is in the one
// form with eight digits, and at most 10^40. A number of fewer digits has that form too, so the type is one for every arithmetic of up to
// eight digits.
#[derive(Clone, Copy)]
pub struct Scientific {
    pub(crate) significand: i32,
    pub(crate) zeros: u8,
    ghost full: { is_full (unsigned_abs significand) zeros ≡ true },
    ghost small: { is_small (unsigned_abs significand) zeros ≡ true },
}
