// Numbers as 64 bits and as eight bytes, the highest first.
ghost use Rattle.std.specs.Prelude.{◌≡◌};
ghost use Rattle.arithmetic.specs.Meaning.{Number};
ghost use Rattle.arithmetic.specs.Setting.{admission, Admits};
ghost use Rattle.binary64.specs.Patterns.{meaning, reads, written, admission as admission_of};
ghost use Rattle.binary64.specs.Doubles.{units};

use crate::double::Double;
use crate::exact::zero;
use crate::limits::{HIGH_BITS, SIGN};
use arithmetic::cause::Cause;

// the bits of infinity; a NaN has more
const INFINITY_BITS: u64 = 0x7ff0_0000_0000_0000;

// The number of a bit pattern; 0 where it is none.
#[tactic(auto, using(crate::proofs::BitTests::readings, crate::proofs::Numbers::numbers))]
pub(crate) fn read(bits: u64) -> Double
    ensures answer { units result ≡ reads bits }
    ensures number { Number meaning (units result) }
{
    if bits % SIGN <= HIGH_BITS {
        return Double {
            x: f64::from_bits(bits),
        };
    }
    zero()
}

// The one bit pattern of a number: adding 0 turns minus zero into zero.
#[tactic(auto, using(crate::specs::Written::plain_finite, crate::specs::Written::plain_written, crate::specs::Written::plain_back, crate::proofs::Numbers::numbers))]
pub(crate) fn plain(a: Double) -> u64
    ensures answer { result ≡ written (units a) }
    ensures back { reads result ≡ units a }
{
    (a.x + 0.0).to_bits()
}

// The number of a bit pattern, or the cause of its refusal.
#[tactic(auto, using(crate::proofs::BitTests::admissions, crate::proofs::Numbers::numbers))]
pub(crate) fn checked(bits: u64) -> Result<Double, Cause>
    ensures answer { admission units result ≡ admission_of bits }
    ensures number { Admits meaning units result }
{
    let m = bits % SIGN;
    if m >= INFINITY_BITS {
        return Err(Cause::NotFinite);
    }
    if m > HIGH_BITS {
        return Err(Cause::TooLarge);
    }
    Ok(Double {
        x: f64::from_bits(bits),
    })
}

// The number that eight bytes are admitted as, or the cause of their refusal.
#[tactic(auto, using(crate::specs::TheRules::admit_is))]
pub(crate) fn admit(bytes: &[u8; 8]) -> Result<Double, Cause>
    ensures answer { admission units result ≡ meaning.admit bytes.now }
    ensures number { Admits meaning units result }
{
    checked(u64::from_be_bytes(*bytes))
}

// The eight bytes of a number.
#[tactic(auto, using(crate::specs::TheRules::pattern_is))]
pub(crate) fn pattern(a: Double) -> [u8; 8]
    ensures { result ≡ meaning.pattern (units a) }
{
    plain(a).to_be_bytes()
}
