// Numbers as M and e, and as eight bytes.
ghost use Rattle.std.specs.Prelude.{◌≡◌, ◌≤◌, pos, ◌-ℤ◌};
ghost use Rattle.arithmetic.specs.Meaning.{Number};
ghost use Rattle.arithmetic.specs.Setting.{admission, Admits};
ghost use Rattle.scientific.specs.Forms.{is_form};
ghost use Rattle.scientific.specs.Numbers.{units, Behind};
ghost use Rattle.scientific.specs.Patterns.{meaning, reads, written, admission as admission_of};

use crate::exact::zero;
use crate::forms::formed;
use crate::number::Scientific;
use crate::precision::Precision;
use crate::tables::{digits, power};
use crate::written::Written;
use arithmetic::cause::Cause;

// ---- from M and e

// The zeros behind M in units of 10^-70, e + 70; none where e is not from -70 to 41, less the digits.
fn behind(e: i16, p: Precision) -> Option<u8>
    ensures { Behind p.digits e result }
{
    if e < -70 || e > 41 - p.digits as i16 {
        return None;
    }
    Some((e + 70) as u8)
}

// Whether a significand of this size and the zeros behind it are in the one form with as many digits as p has.
fn in_form(size: u32, zeros: u8, p: Precision) -> bool
    ensures { result ≡ is_form p.digits size zeros }
{
    if size == 0 {
        return zeros == 70;
    }
    let size = size as u64;
    size < power(p.digits as u32) && (zeros == 0 || size >= power(p.digits as u32 - 1))
}

// The number that M and e stand for, or the cause of their refusal.
#[inline(always)]
#[tactic(auto, using(crate::proofs::NumberOf::eight_digits, crate::proofs::Admissions::out_of_range, crate::proofs::Admissions::form_eight, crate::proofs::Admissions::other_form, crate::proofs::Admissions::made, crate::proofs::Admissions::made_number))]
pub fn checked(m: i32, e: i16, p: Precision) -> Result<Scientific, Cause>
    ensures answer { admission units result ≡ admission_of p.digits m e }
    ensures number { Admits (meaning p.digits) units result }
{
    let zeros = behind(e, p).ok_or(Cause::NotInOneForm)?;
    if !in_form(m.unsigned_abs(), zeros, p) {
        return Err(Cause::NotInOneForm);
    }
    formed(m as i64, zeros as u32).ok_or(Cause::TooLarge)
}

// The number that M and e stand for; 0 where they stand for none.
#[tactic(auto, unfolding(crate::specs::Patterns::reads))]
pub fn read(w: Written, p: Precision) -> Scientific
    ensures answer { units result ≡ reads p.digits w }
    ensures number { Number (meaning p.digits) (units result) }
{
    checked(w.m, w.e, p).unwrap_or(zero())
}

// The number that eight bytes are admitted as, or the cause of their refusal.
#[tactic(auto, using(crate::proofs::BytePatterns::sixth_other, crate::proofs::BytePatterns::seventh_other, crate::proofs::BytePatterns::admit_parts))]
pub fn admit(bytes: &[u8; 8], p: Precision) -> Result<Scientific, Cause>
    ensures answer { admission units result ≡ (meaning p.digits).admit bytes.now }
    ensures number { Admits (meaning p.digits) units result }
{
    let [m0, m1, m2, m3, e0, e1, 0, 0] = *bytes else {
        return Err(Cause::NotInOneForm);
    };
    let m = i32::from_be_bytes([m0, m1, m2, m3]);
    let e = i16::from_be_bytes([e0, e1]);
    checked(m, e, p)
}

// ---- to M and e

// e with so many zeros behind M.
fn exponent(zeros: u32) -> i16
    requires { zeros ≤ 300 }
    ensures { result ≡ pos zeros -ℤ pos 70 }
{
    zeros as i16 - 70
}

// The one M and e of a number: digits past as many as p has are cut off, and stand behind as zeros.
#[inline(always)]
pub fn plain(a: Scientific, p: Precision) -> Written
    requires { Number (meaning p.digits) (units a) }
    ensures answer { result ≡ written p.digits (units a) }
    ensures back { reads p.digits result ≡ units a }
{
    if a.significand == 0 {
        return Written { m: 0, e: 0 };
    }
    let cut = digits(a.significand.unsigned_abs() as u64).saturating_sub(p.digits as u32);
    Written {
        m: a.significand / power(cut) as i32,
        e: exponent(a.zeros as u32 + cut),
    }
}

// The eight bytes of a number.
#[tactic(auto, using(crate::proofs::BytePatterns::pattern_parts))]
pub fn pattern(a: Scientific, p: Precision) -> [u8; 8]
    requires { Number (meaning p.digits) (units a) }
    ensures { result ≡ (meaning p.digits).pattern (units a) }
{
    let w = plain(a, p);
    let m = w.m.to_be_bytes();
    let e = w.e.to_be_bytes();
    [m[0], m[1], m[2], m[3], e[0], e[1], 0, 0]
}
