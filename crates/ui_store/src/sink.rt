// A sink of bytes.
ghost use Rattle.std.specs.Prelude.{◌≡◌, ◌<◌, ◌≤◌, IfOk, OnOk, OnErr, length};
ghost use Rattle.ui_store.specs.Causes.{HasCause};
ghost use Rattle.ui_store.specs.Told.{more};
ghost use Rattle.ui_store.specs.Views.{SinkView};
ghost use Rattle.ui_store.specs.Sinks.{Appends, Partly};

use crate::fault::IoFault;

/// Takes bytes, as standard output does.
pub trait Sink {
    /// What the sink tells: the bytes written so far, where it tells them, and its count of faults.
    ghost told: { Self → SinkView };

    /// Takes bytes from the front of the piece, at least one where there is one, and says how many.
    fn write(&mut self, piece: &[u8]) -> Result<usize, IoFault>
        ensures within { IfOk result (λ n. n ≤ length piece.now) }
        ensures some { IfOk result (λ n. 0 < length piece.now → 0 < n) }
        ensures bytes { Appends (told self.old).written (told self.new).written piece.now result }
        ensures cause { HasCause (told self.old).faults (told self.new).faults result };
}

/// Writes all of the bytes. After a fault a front of them is written.
#[tactic(auto, using(crate::specs::Told::growing, crate::specs::Sinks::partly_taken))]
pub fn put_all<K: Sink>(sink: &mut K, bytes: &[u8]) -> Result<(), IoFault>
    ensures ok { OnOk result
        ((K.told sink.new).written ≡ more (K.told sink.old).written bytes.now) }
    ensures err { OnErr result
        (Partly (K.told sink.old).written (K.told sink.new).written bytes.now) }
    ensures cause { HasCause (K.told sink.old).faults (K.told sink.new).faults result }
{
    let mut done = 0;
    while done < bytes.len() {
        let count = sink.write(&bytes[done..])?;
        done += count;
    }
    Ok(())
}
