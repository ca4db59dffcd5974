// A buffer lent by the caller, as a sink.
ghost use Rattle.std.specs.Prelude.{◌≤◌, length};

// The bytes that are lent, and how many of them were put.
#[derive(Drop)]
pub struct Region<'b> {
    pub(crate) bytes: &'b mut [u8],
    pub(crate) at: usize,

    ghost within: { at ≤ length bytes.now },
}
