// The numbers of the arithmetic.
ghost use Rattle.std.specs.Prelude.{◌≡◌, true};
ghost use Rattle.std.specs.Float.Ieee.Scale.{finite};
ghost use Rattle.binary64.specs.Limits.{Small};

// A finite float at most 2^900 in size. That its value is a number of the arithmetic follows, but is promised by each function: tried
// as a lemma over this type, the search found it in half of them and gave up in the others.
#[derive(Clone, Copy)]
pub struct Double {
    pub(crate) x: f64,
    ghost number: { finite x ≡ true },
    ghost small: { Small x },
}
