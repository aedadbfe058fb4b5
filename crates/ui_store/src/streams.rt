// The trusted edge: the readers and writers of std.
ghost use Rattle.std.specs.Prelude.{◌≡◌, None};

use crate::fault::IoFault;
use crate::sink::Sink;
use crate::source::Source;
use std::io::{Read, Write};

/// A source over a reader of std, as standard input is one. It tells nothing, and counts each fault
/// of the system.
#[derive(Drop)]
pub struct InSource<R> {
    inner: R,
    faults: u64,
}

impl<R> InSource<R> {
    /// A source over this reader.
    pub fn new(inner: R) -> InSource<R>
        ensures { result.faults ≡ 0 }
    {
        InSource { inner, faults: 0 }
    }
}

impl<R: Read> Source for InSource<R> {
    ghost told = { λ s. record { left = None; faults = s.faults } };

    #[tactic(auto, unfolding(crate::specs::Told::less))]
    fn read(&mut self, piece: &mut [u8]) -> Result<usize, IoFault> {
        match self.inner.read(piece) {
            Ok(count) => Ok(count),
            Err(_) => {
                self.faults = self.faults.saturating_add(1);
                Err(IoFault)
            }
        }
    }
}

/// A sink over a writer of std, as standard output is one. It tells nothing, and counts each fault
/// of the system; a taken count of zero is one.
#[derive(Drop)]
pub struct OutSink<W> {
    inner: W,
    faults: u64,
}

impl<W> OutSink<W> {
    /// A sink over this writer.
    pub fn new(inner: W) -> OutSink<W>
        ensures { result.faults ≡ 0 }
    {
        OutSink { inner, faults: 0 }
    }
}

impl<W: Write> Sink for OutSink<W> {
    ghost told = { λ s. record { written = None; faults = s.faults } };

    #[tactic(auto, unfolding(crate::specs::Told::more))]
    fn write(&mut self, piece: &[u8]) -> Result<usize, IoFault> {
        match self.inner.write(piece) {
            Ok(count) if count > 0 || piece.is_empty() => Ok(count),
            _ => {
                self.faults = self.faults.saturating_add(1);
                Err(IoFault)
            }
        }
    }
}
