ghost use Rattle.std.specs.Prelude.{ℕ, List};
ghost use Rattle.plancheck.specs.Source.{Delivered, GaveKnown};

use std::io;
use std::io::Read;

/// A source of bytes, which delivers them in pieces.
///
/// `gave s xs t` says that a source which stands as s may deliver the bytes xs and then stand as t. What is proved of
/// the reading is proved for every source, whatever `gave` says of it.
pub trait Source {
    ghost gave: { Self → List ℕ → Self → Type 0 };

    /// Puts one delivery at the front of the buffer, and says how many bytes it has: none where the source has ended
    /// or the buffer has no room.
    fn deliver(&mut self, buf: &mut [u8]) -> io::Result<usize>
        ensures { Delivered gave self.old result buf.new self.new };
}

/// Every reader is a source, and a delivery is one read, which is not made again where it fails. Where it is known which
/// bytes the reader has left, these are what it gives. Of standard input the library does not say it, so nothing is
/// said of what standard input gave, and that these are its bytes is only tested.
impl<R: Read> Source for R {
    ghost gave = { λ s xs t. GaveKnown (R.remaining s) xs (R.remaining t) };

    fn deliver(&mut self, buf: &mut [u8]) -> io::Result<usize> {
        self.read(buf)
    }
}
