// A source of bytes.
ghost use Rattle.std.specs.Prelude.{◌≡◌, ◌≤◌, IfSome, IfOk, length};
ghost use Rattle.ui_store.specs.Causes.{HasCause};
ghost use Rattle.ui_store.specs.Views.{SourceView};
ghost use Rattle.ui_store.specs.Sources.{Takes, Moves};

use crate::fault::IoFault;

/// Gives bytes, as standard input does.
pub trait Source {
    /// What the source tells: the bytes left, where it tells them, and its count of faults.
    ghost told: { Self → SourceView };

    /// Moves the first bytes left into the front of the piece, and says how many. None for a piece
    /// that isn't empty is the end. What lies in the piece behind them is left open.
    fn read(&mut self, piece: &mut [u8]) -> Result<usize, IoFault>
        ensures within { IfOk result (λ n. n ≤ length piece.old) }
        ensures moves { IfSome (told self.old).left (λ bytes. IfOk result (Moves bytes piece.new)) }
        ensures left { Takes result (told self.old).left (told self.new).left }
        ensures cause { HasCause (told self.old).faults (told self.new).faults result };
}
