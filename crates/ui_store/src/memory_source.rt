// A source in memory, which tells what is left.
ghost use Rattle.std.specs.Prelude.{◌≡◌, ◌≤◌, Some, vec_len};

use crate::fault::IoFault;
use crate::source::Source;

/// A source in memory. It tells the bytes left, and fails at the calls of a list.
#[derive(Drop)]
pub struct MemSource {
    bytes: Vec<u8>,
    taken: usize,
    fails: Vec<u64>,
    calls: u64,
    faults: u64,
    ghost in_range: { taken ≤ vec_len bytes },
}

impl MemSource {
    ghost use Rattle.ui_store.specs.MemorySource.{supply_of};

    /// A source of these bytes that fails at the calls of these numbers, from 0.
    pub fn new(bytes: Vec<u8>, fails: Vec<u64>) -> MemSource
        ensures { supply_of result ≡ record
            { left = bytes.items; fails = fails.items; calls = 0; faults = 0 } }
    {
        MemSource {
            bytes,
            taken: 0,
            fails,
            calls: 0,
            faults: 0,
        }
    }

    /// How many calls have failed.
    pub fn faults(&self) -> u64
        ensures { result ≡ (supply_of self.now).faults }
    {
        self.faults
    }
}

impl Source for MemSource {
    ghost use Rattle.std.specs.Prelude.{◌≡◌, ◌≤◌, Some, length, IfOk};
    ghost use Rattle.ui_store.specs.Causes.{HasCause};
    ghost use Rattle.ui_store.specs.Sources.{Takes, Moves};
    ghost use Rattle.ui_store.specs.MemorySource.{supply_of, IsRead};

    ghost told = { λ s. record { left = Some (supply_of s).left; faults = (supply_of s).faults } };

    #[tactic(auto, unfolding(crate::specs::Told::less))]
    fn read(&mut self, piece: &mut [u8]) -> Result<usize, IoFault>
        ensures within { IfOk result (λ n. n ≤ length piece.old) }
        ensures moves { IfOk result (Moves (supply_of self.old).left piece.new) }
        ensures left { Takes result (Some (supply_of self.old).left)
            (Some (supply_of self.new).left) }
        ensures cause { HasCause (supply_of self.old).faults (supply_of self.new).faults result }

        ensures call { IsRead (supply_of self.old) (supply_of self.new) piece.old piece.new result }
    {
        let number = self.calls;
        self.calls = number.saturating_add(1);
        if self.fails.contains(&number) {
            self.faults = self.faults.saturating_add(1);
            return Err(IoFault);
        }
        let left = &self.bytes[self.taken..];
        let count = piece.len().min(left.len());
        piece[..count].copy_from_slice(&left[..count]);
        self.taken += count;
        Ok(count)
    }
}
