// A sink in memory, which tells what was written.
ghost use Rattle.std.specs.Prelude.{◌≡◌, ◌≤◌, [], IfOk, vec_len, vec_capacity};

use crate::fault::IoFault;
use crate::sink::Sink;
use std::alloc::Global;
use ui_base::NoMemory;

/// A sink in memory, with room for so many bytes. It tells the bytes written, and fails at the
/// calls of a list and where its room is used up.
#[derive(Drop)]
pub struct MemSink {
    bytes: Vec<u8>,
    room: usize,
    fails: Vec<u64>,
    calls: u64,
    faults: u64,
    ghost within_room: { vec_len bytes ≤ room },
    ghost room_made: { room ≤ vec_capacity bytes },
}

impl MemSink {
    ghost use Rattle.ui_store.specs.MemorySink.{buffer_of};

    /// An empty sink, with the memory for its whole room. It fails at the calls of these numbers,
    /// from 0.
    pub fn new(alloc: Global, room: usize, fails: Vec<u64>) -> Result<MemSink, NoMemory>
        ensures { IfOk result
            (λ s. buffer_of s ≡ record
            { written = []; room = room; fails = fails.items; calls = 0; faults = 0 }) }
    {
        let bytes = Vec::with_capacity(alloc, room)?;
        Ok(MemSink {
            bytes,
            room,
            fails,
            calls: 0,
            faults: 0,
        })
    }

    /// The bytes written so far.
    pub fn written(&self) -> &[u8]
        ensures { result.now ≡ (buffer_of self.now).written }
    {
        &self.bytes
    }

    /// How many calls have failed.
    pub fn faults(&self) -> u64
        ensures { result ≡ (buffer_of self.now).faults }
    {
        self.faults
    }
}

impl Sink for MemSink {
    ghost use Rattle.std.specs.Prelude.{◌≡◌, ◌≤◌, ◌<◌, Some, length, IfOk};
    ghost use Rattle.ui_store.specs.Causes.{HasCause};
    ghost use Rattle.ui_store.specs.Sinks.{Appends};
    ghost use Rattle.ui_store.specs.MemorySink.{buffer_of, IsWrite};

    ghost told = { λ s. record {
      written = Some (buffer_of s).written;
      faults = (buffer_of s).faults;
    } };

    /// Takes as many bytes as the room left holds. An empty piece needs no room. Takes no memory.
    #[tactic(auto, unfolding(crate::specs::Told::more))]
    fn write(&mut self, piece: &[u8]) -> Result<usize, IoFault>
        ensures within { IfOk result (λ n. n ≤ length piece.now) }
        ensures some { IfOk result (λ n. 0 < length piece.now → 0 < n) }
        ensures bytes { Appends (Some (buffer_of self.old).written)
            (Some (buffer_of self.new).written) piece.now result }
        ensures cause { HasCause (buffer_of self.old).faults (buffer_of self.new).faults result }

        ensures call { IsWrite (buffer_of self.old) (buffer_of self.new) piece.now result }
    {
        let number = self.calls;
        self.calls = number.saturating_add(1);
        let count = piece.len().min(self.room - self.bytes.len());
        if self.fails.contains(&number)
            || (count == 0 && !piece.is_empty())
            || self.bytes.extend_from_slice(&piece[..count]).is_err()
        {
            self.faults = self.faults.saturating_add(1);
            return Err(IoFault);
        }
        Ok(count)
    }
}
