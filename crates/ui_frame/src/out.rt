// The container, written.
ghost use Rattle.std.specs.Prelude.{◌≡◌, ◌↔◌, length, IfOk, OnOk, OnErr};
ghost use Rattle.ui_frame.specs.Container.{section, no_elements, with_element, IsContainer};
ghost use Rattle.ui_frame.specs.Container.{IsTooMany};

use crate::NoMemory;
use crate::frame::{FLAGS, VERSION, fingerprint_of};
use crate::section::Section;
use crate::section_out::{SectionOut, put_all_ends, put_contents, put_counts, put_word};
use std::alloc::{AllocError, Global};
use std::marker::Model;

/// Why an element wasn't added.
#[derive(Clone, Copy, Debug, PartialEq, Eq)]
pub enum OutFault {
    /// The number of elements of the whole file, or of their bytes, would pass 2^32 - 1.
    Full,
    /// There is no memory.
    NoMemory,
}

impl From<AllocError> for OutFault {
    ghost use Rattle.ui_frame.specs.declared.out.OutFault.TheVariants as fault;

    ghost from_gives = { λ _ e. e ≡ fault.NoMemory };

    fn from(_: AllocError) -> Self {
        OutFault::NoMemory
    }
}

/// A container that is being written, element by element. Elements may be added to the sections in
/// any order.
///
/// A contract sees it as the parts so far: ten sections, each a list of elements, each a list of
/// bytes.
#[derive(Debug, Drop)]
pub struct FrameOut {
    sections: [SectionOut; 10],
    count: u32,
    size: u32,
}

impl Model for FrameOut {
    ghost use Rattle.std.specs.Prelude.{◌≡◌, length};
    ghost use Rattle.ui_frame.specs.Container.{Parts, contents, elements, HasContainer};

    ghost Value = { Parts };

    ghost view = { λ f. f.sections };

    ghost invariant = { λ f. HasContainer f.sections × (f.count ≡ length (elements f.sections))
        × (f.size ≡ length (contents f.sections)) };
}

impl FrameOut {
    /// A container without elements. Takes no memory.
    pub fn new(alloc: Global) -> FrameOut
        ensures { result ≡ no_elements }
    {
        FrameOut {
            sections: [
                SectionOut::new(alloc),
                SectionOut::new(alloc),
                SectionOut::new(alloc),
                SectionOut::new(alloc),
                SectionOut::new(alloc),
                SectionOut::new(alloc),
                SectionOut::new(alloc),
                SectionOut::new(alloc),
                SectionOut::new(alloc),
                SectionOut::new(alloc),
            ],
            count: 0,
            size: 0,
        }
    }

    /// Adds an element at the end of a section, and gives its number: that of the elements that the
    /// section had. After an error nothing has changed.
    pub fn add(&mut self, alloc: Global, s: Section, bytes: &[u8]) -> Result<u32, OutFault>
        ensures number { IfOk result (λ n. n ≡ length (section s self.old)) }
        ensures added { OnOk result (self.new ≡ with_element s bytes.now self.old) }
        ensures full { (result ≡ Err OutFault.Full) ↔ IsTooMany bytes.now self.old }
        ensures unchanged { OnErr result (self.new ≡ self.old) }
    {
        if self.count == u32::MAX || bytes.len() > (u32::MAX - self.size) as usize {
            return Err(OutFault::Full);
        }
        let section = &mut self.sections[s.number() as usize];
        let number = section.count() as u32;
        section.push(bytes)?;
        self.count += 1;
        self.size += bytes.len() as u32;
        Ok(number)
    }

    /// The bytes of the container of the elements added, which `Frame::open` opens.
    pub fn finish(self, alloc: Global) -> Result<Vec<u8>, NoMemory>
        ensures { IfOk result (λ file. IsContainer file.items self) }
    {
        let mut out = Vec::with_capacity(alloc, 56 + 4 * self.count as usize + self.size as usize)?;
        put_word(&mut out, VERSION)?;
        put_word(&mut out, FLAGS)?;
        put_counts(&self.sections, &mut out)?;
        put_all_ends(&self.sections, &mut out)?;
        put_contents(&self.sections, &mut out)?;
        let fingerprint = fingerprint_of(&out);
        out.extend_from_slice(&fingerprint)?;
        Ok(out)
    }
}
