// The elements of one section that is being written.
ghost use Rattle.std.specs.Prelude.{◌≡◌, ◌+◌, ◌^◌, ◌<◌, ◌++◌, ◌∷◌, [], ℕ, List, length, map};
ghost use Rattle.std.specs.Prelude.{slice_index, OnOk, OnErr};
ghost use Rattle.ui_frame.specs.Container.{ends_of, joined, running, word, words};

use crate::NoMemory;
use byteorder::{ByteOrder, LittleEndian};
use std::alloc::Global;
use std::marker::Model;

/// The elements of one section, in the order added: their bytes, and where each ends.
#[derive(Debug, Drop)]
pub(crate) struct SectionOut {
    ends: Vec<u32>,
    bytes: Vec<u8>,
}

impl Model for SectionOut {
    ghost use Rattle.std.specs.Prelude.{◌≡◌, ℕ, List, length, true};
    ghost use Rattle.ui_frame.specs.Opening.{ascends, cut, last_from};

    ghost Value = { List (List ℕ) };

    ghost view = { λ s. cut 0 s.ends.items s.bytes.items };

    ghost invariant = { λ s. (ascends 0 s.ends.items ≡ true)
        × (last_from 0 s.ends.items ≡ length s.bytes.items) };
}

impl SectionOut {
    /// A section without elements.
    pub(crate) fn new(alloc: Global) -> SectionOut
        ensures { result ≡ [] }
    {
        SectionOut {
            ends: Vec::new(alloc),
            bytes: Vec::new(alloc),
        }
    }

    /// The number of elements.
    pub(crate) fn count(&self) -> usize
        ensures { result ≡ length self.now }
    {
        self.ends.len()
    }

    /// The bytes of all elements, one after another.
    pub(crate) fn contents(&self) -> &[u8]
        ensures { result.now ≡ joined self.now }
    {
        &self.bytes
    }

    /// Adds an element at the end. After an error nothing has changed.
    pub(crate) fn push(&mut self, bytes: &[u8]) -> Result<(), NoMemory>
        requires { length (joined self.old) + length bytes.now < 2 ^ 32 }
        ensures ok { OnOk result (self.new ≡ self.old ++ bytes.now ∷ []) }
        ensures err { OnErr result (self.new ≡ self.old) }
    {
        let end = self.bytes.len() + bytes.len();
        self.ends.push(end as u32)?;
        if let Err(error) = self.bytes.extend_from_slice(bytes) {
            self.ends.pop();
            return Err(error);
        }
        Ok(())
    }

    /// Appends the running ends of the elements, counted on from `start`.
    pub(crate) fn put_ends(&self, start: u32, out: &mut Vec<u8>) -> Result<(), NoMemory>
        requires { start + length (joined self.now) < 2 ^ 32 }
        ensures { OnOk result (out.new.items ≡ out.old.items ++ words
            (running start (map length self.now))) }
    {
        put_shifted(&self.ends, start, out)
    }
}

/// Appends a number in four bytes, the lowest first.
#[tactic(auto, unfolding(crate::specs::Container::word))]
pub(crate) fn put_word(out: &mut Vec<u8>, n: u32) -> Result<(), NoMemory>
    ensures { OnOk result (out.new.items ≡ out.old.items ++ word n) }
{
    let mut bytes = [0; 4];
    LittleEndian::write_u32(&mut bytes, n);
    out.extend_from_slice(&bytes)
}

// Appends numbers, `start` added to each.
fn put_shifted(ends: &[u32], start: u32, out: &mut Vec<u8>) -> Result<(), NoMemory>
    requires { (k : ℕ) → k < length ends.now → start + slice_index ends.now k < 2 ^ 32 }
    ensures { OnOk result (out.new.items ≡ out.old.items ++ words (map (λ n. start + n) ends.now)) }
{
    for end in ends {
        put_word(out, start + *end)?;
    }
    Ok(())
}

/// Appends the running counts of the elements of the sections.
pub(crate) fn put_counts(sections: &[SectionOut], out: &mut Vec<u8>) -> Result<(), NoMemory>
    requires { length (joined sections.now) < 2 ^ 32 }
    ensures { OnOk result (out.new.items ≡ out.old.items ++ words (ends_of sections.now)) }
{
    let mut count = 0;
    for section in sections {
        count += section.count();
        put_word(out, count as u32)?;
    }
    Ok(())
}

/// Appends the running ends of all elements of the sections.
pub(crate) fn put_all_ends(sections: &[SectionOut], out: &mut Vec<u8>) -> Result<(), NoMemory>
    requires { length (joined (joined sections.now)) < 2 ^ 32 }
    ensures { OnOk result (out.new.items ≡ out.old.items ++ words (ends_of (joined sections.now))) }
{
    let mut start = 0;
    for section in sections {
        section.put_ends(start as u32, out)?;
        start += section.contents().len();
    }
    Ok(())
}

/// Appends the bytes of all elements of the sections.
pub(crate) fn put_contents(sections: &[SectionOut], out: &mut Vec<u8>) -> Result<(), NoMemory>
    ensures { OnOk result (out.new.items ≡ out.old.items ++ joined (joined sections.now)) }
{
    for section in sections {
        out.extend_from_slice(section.contents())?;
    }
    Ok(())
}
