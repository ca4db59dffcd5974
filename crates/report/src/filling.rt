// Putting into a lent buffer. It never refuses.
ghost use Rattle.std.specs.Prelude.{◌≡◌, ◌++◌, length, take, drop, min};

use crate::region::Region;
use crate::sink::Sink;
use std::convert::Infallible;

impl<'b> Region<'b> {
    // A buffer of which nothing is written yet.
    pub fn new(bytes: &'b mut [u8]) -> Region<'b>
        ensures bytes { result.bytes.now ≡ bytes.old }
        ensures start { result.at ≡ 0 }
        ensures lender { result.bytes.ghost_name ≡ bytes.entry.ghost_name }
    {
        Region { bytes, at: 0 }
    }
}

// Copies as many bytes as both have, and answers how many.
fn copy_beginning(from: &[u8], to: &mut [u8]) -> usize
    ensures count { result ≡ min (length from.now) (length to.old) }
    ensures copied { to.new ≡ take result from.now ++ drop result to.old }
{
    let count = from.len().min(to.len());
    to[..count].copy_from_slice(&from[..count]);
    count
}

impl Sink for Region<'_> {
    ghost use Rattle.report.specs.Regions.{Fills};
    ghost use Rattle.report.specs.RegionLaws.{fills_nothing, fills_on};

    type Refusal = Infallible;

    ghost takes = { λ r s text. Fills r s text };

    fn put(&mut self, bytes: &[u8]) -> Result<(), Infallible> {
        self.at += copy_beginning(bytes, &mut self.bytes[self.at..]);
        Ok(())
    }

    ghost nothing = { λ r. fills_nothing r };

    ghost in_turn = { λ r s t xs ys. fills_on r s t xs ys };
}
