// A sink over a writer of the standard library.
ghost use Rattle.std.specs.Prelude.{◌≡◌};
ghost use Rattle.std.specs.Io.KnownBytes.{Appends, Keeps};
ghost use Rattle.report.specs.WriterLaws.{appends_nothing, appends_on};

use crate::sink::Sink;
use std::io::{self, ErrorKind, Write};

// Writes what is put. It refuses where the writer fails, where the writer takes no more bytes, and after 2⁶⁴ − 1 writes that were interrupted
// or took a part of the bytes. (That it refuses nowhere else no contract says, since none of a writer says when it fails.)
#[derive(Drop)]
pub struct Printer<W: Write + Drop> {
    out: W,
}

impl<W: Write + Drop> Printer<W> {
    pub fn new(out: W) -> Printer<W>
        ensures { result.out ≡ out }
    {
        Printer { out }
    }

    // Flushes the writer, which may hold bytes back. Of known contents it says that they stay, and no more.
    pub fn flush(&mut self) -> io::Result<()>
        ensures { Keeps (W.contents self.old.out) (W.contents self.new.out) }
    {
        self.out.flush()
    }
}

impl<W: Write + Drop> Sink for Printer<W> {
    type Refusal = io::Error;

    // where the bytes that the writer holds are known, they have grown by these
    ghost takes = { λ s t bytes. Appends (W.contents s.out) (W.contents t.out) bytes };

    #[tactic(auto, using(crate::proofs::Writing::appends_kept, crate::proofs::Writing::appends_all, crate::proofs::Writing::beginning))]
    fn put(&mut self, bytes: &[u8]) -> io::Result<()> {
        let mut at = 0;
        for _ in 0..u64::MAX {
            if at == bytes.len() {
                return Ok(());
            }
            match self.out.write(&bytes[at..]) {
                Ok(0) => return Err(ErrorKind::WriteZero.into()),
                Ok(n) => at += n,
                Err(e) if e.kind() == ErrorKind::Interrupted => {}
                Err(e) => return Err(e),
            }
        }
        Err(ErrorKind::TimedOut.into())
    }

    ghost nothing = { λ s. appends_nothing (W.contents s.out) };

    ghost in_turn = { λ r s t xs ys. appends_on (W.contents r.out) (W.contents s.out) (W.contents t.out) xs ys };
}
