// The container, read: its tests, its parts and its fingerprint.
ghost use Rattle.std.specs.Prelude.{◌≡◌, ◌+◌, ◌*◌, ◌<◌, ◌≤◌, ◌∷◌, [], ℕ, true, false, List, length};
ghost use Rattle.std.specs.Prelude.{take, IfNone, IfSome, IfOk, IfErr, OnOk, slice_get};
ghost use Rattle.std.specs.Prelude.{slice_index, slice_index_or, slice_range};
ghost use Rattle.std.specs.Option.{option_copied};
ghost use Rattle.ui_frame.specs.Laws.{IsBytes};
ghost use Rattle.ui_frame.specs.Container.{Parts, section, elements, fingerprint};
ghost use Rattle.ui_frame.specs.Container.{fingerprint_after, IsContainer};
ghost use Rattle.ui_frame.specs.Opening.{ascends, first_failing, kept_in, last_from, parts_in};
ghost use Rattle.ui_frame.specs.Opening.{word_at, words_at};

use crate::section::Section;
use byteorder::{ByteOrder, LittleEndian};
use sha2::{Digest, Sha256};
use std::marker::Model;

/// The version of the files that are read and written.
pub(crate) const VERSION: u32 = 1;

/// The flags of such files.
pub(crate) const FLAGS: u32 = 0;

// The length of a container without elements, and the places of its tables.
const EMPTY_LENGTH: usize = 56;

const COUNTS: usize = 8;

const LAST_COUNT: usize = 44;

const ENDS: usize = 48;

/// The first test of a container that bytes fail. The tests go in this order.
#[derive(Clone, Copy, Debug, PartialEq, Eq)]
pub enum FrameFault {
    /// There are fewer than the 56 bytes of a container without elements.
    Short,
    /// The version isn't 1.
    Version,
    /// The flags aren't 0.
    Flags,
    /// A running count is less than the one before, or the table of ends doesn't fit the bytes.
    Counts,
    /// A running end is less than the one before.
    Ends,
    /// The last end isn't the number of bytes between the table of ends and the fingerprint.
    Length,
    /// The fingerprint that is kept at the end isn't the one of the bytes before it.
    Fingerprint {
        /// The last eight bytes.
        kept: [u8; 8],
        /// The first eight bytes of SHA-256 over all bytes before.
        computed: [u8; 8],
    },
}

/// An opened container. Its elements are lent from the bytes that it was opened over.
///
/// A contract sees it as its parts: ten sections, each a list of elements, each a list of bytes.
#[derive(Debug, Drop)]
pub struct Frame<'a> {
    bytes: &'a [u8],
}

impl<'a> Model for Frame<'a> {
    ghost use Rattle.ui_frame.specs.Container.{Parts, IsContainer};
    ghost use Rattle.ui_frame.specs.Opening.{parts_in};

    ghost Value = { Parts };

    ghost view = { λ f. parts_in f.bytes.now };

    ghost invariant = { λ f. IsContainer f.bytes.now (parts_in f.bytes.now) };
}

impl<'a> Frame<'a> {
    /// Opens the container that the bytes are, all of them. An error is the first test that fails.
    /// Takes no memory.
    pub fn open(bytes: &'a [u8]) -> Result<Frame<'a>, FrameFault>
        // What is opened is a container of these parts,
        ensures found { IfOk result (λ frame. IsContainer bytes.now frame) }
        // and every container is opened.
        ensures every { (parts : Parts) → IsContainer bytes.now parts → result ≡ Ok parts }
        ensures fault { IfErr result (λ fault. first_failing bytes.now ≡ Some fault) }
    {
        test_container(bytes)?;
        Ok(Frame { bytes })
    }

    /// The number of elements of a section.
    pub fn count(&self, s: Section) -> u32
        ensures { result ≡ length (section s self.now) }
    {
        let (first, end) = self.section_range(s);
        end - first
    }

    /// The bytes of an element by its number, or nothing where the number isn't below the section's
    /// count. Takes the same time for each element.
    pub fn element(&self, s: Section, k: u32) -> Option<&'a [u8]>
        ensures { option_copied result ≡ slice_get (section s self.now) k }
    {
        let (first, end) = self.section_range(s);
        if k < end - first {
            Some(self.element_of_all(first + k))
        } else {
            None
        }
    }

    /// The first eight bytes of SHA-256 over all bytes before them.
    pub fn fingerprint(&self) -> [u8; 8]
        ensures { result ≡ fingerprint self.now }
    {
        kept_fingerprint(self.bytes)
    }

    // The numbers of a section's first element and of the one after its last, among all elements.
    fn section_range(&self, s: Section) -> (u32, u32)
        ensures count { result.0 + length (section s self.now) ≡ result.1 }
        ensures within { result.1 ≤ length (elements self.now) }
        ensures place { section s self.now ≡ slice_range (elements self.now) result.0 result.1 }
    {
        range_at(self.bytes, COUNTS, s.number() as usize)
    }

    // The bytes of an element by its number among all elements.
    fn element_of_all(&self, i: u32) -> &'a [u8]
        requires { i < length (elements self.now) }
        ensures { result.now ≡ slice_index_or (elements self.now) i [] }
    {
        let bytes = self.bytes;
        let contents = ENDS + 4 * read_word(bytes, LAST_COUNT) as usize;
        let (start, end) = range_at(bytes, ENDS, i as usize);
        &bytes[contents + start as usize..contents + end as usize]
    }
}

// The first test of a container that the bytes fail.
fn test_container(bytes: &[u8]) -> Result<(), FrameFault>
    ensures passed { OnOk result (first_failing bytes.now ≡ None) }
    ensures failed { IfErr result (λ fault. first_failing bytes.now ≡ Some fault) }
{
    if bytes.len() < EMPTY_LENGTH {
        return Err(FrameFault::Short);
    }
    if read_word(bytes, 0) != VERSION {
        return Err(FrameFault::Version);
    }
    if read_word(bytes, 4) != FLAGS {
        return Err(FrameFault::Flags);
    }
    let Some(count) = last_ascending(bytes, 10, COUNTS) else {
        return Err(FrameFault::Counts);
    };
    let count = count as usize;
    if bytes.len() < EMPTY_LENGTH + 4 * count {
        return Err(FrameFault::Counts);
    }
    let Some(size) = last_ascending(bytes, count, ENDS) else {
        return Err(FrameFault::Ends);
    };
    if EMPTY_LENGTH + 4 * count + size as usize != bytes.len() {
        return Err(FrameFault::Length);
    }
    let kept = kept_fingerprint(bytes);
    let computed = fingerprint_of(&bytes[..bytes.len() - 8]);
    if kept != computed {
        return Err(FrameFault::Fingerprint { kept, computed });
    }
    Ok(())
}

// The number of four bytes at a place.
#[tactic(auto, unfolding(crate::specs::Opening::word_at))]
fn read_word(bytes: &[u8], place: usize) -> u32
    requires { place + 4 ≤ length bytes.now }
    ensures { result ≡ word_at place bytes.now }
{
    LittleEndian::read_u32(&bytes[place..])
}

// The last of so many numbers from a place on, or 0 without any, where none is less than the one
// before.
fn last_ascending(bytes: &[u8], count: usize, place: usize) -> Option<u32>
    requires { place + 4 * count ≤ length bytes.now }
    ensures up { IfSome result (λ last. ascends 0 (words_at count place bytes.now) ≡ true) }
    ensures last { IfSome result (λ last. last ≡ last_from 0 (words_at count place bytes.now)) }
    ensures down { IfNone result (ascends 0 (words_at count place bytes.now) ≡ false) }
{
    let mut last = 0;
    for i in 0..count {
        let next = read_word(bytes, place + 4 * i);
        if next < last {
            return None;
        }
        last = next;
    }
    Some(last)
}

// Where the piece begins and ends that the number k of a table of running ends closes.
fn range_at(bytes: &[u8], table: usize, k: usize) -> (u32, u32)
    requires { table + 4 * k + 4 ≤ length bytes.now }
    ensures start { (n : ℕ) → k < n → result.0 ≡ slice_index (0 ∷ words_at n table bytes.now) k }
    ensures end { (n : ℕ) → k < n → result.1 ≡ slice_index (words_at n table bytes.now) k }
{
    let start = if k == 0 {
        0
    } else {
        read_word(bytes, table + 4 * (k - 1))
    };
    (start, read_word(bytes, table + 4 * k))
}

// The last eight bytes.
#[tactic(auto, unfolding(crate::specs::Opening::kept_in))]
fn kept_fingerprint(bytes: &[u8]) -> [u8; 8]
    requires { 8 ≤ length bytes.now }
    ensures { result ≡ kept_in bytes.now }
{
    let mut kept = [0; 8];
    kept.copy_from_slice(&bytes[bytes.len() - 8..]);
    kept
}

// The fingerprint of the bytes of a file before it.
#[tactic(auto, unfolding(crate::specs::Container::fingerprint_after))]
pub(crate) fn fingerprint_of(bytes: &[u8]) -> [u8; 8]
    ensures { result ≡ fingerprint_after bytes.now }
{
    let digest = Sha256::digest(bytes);
    let mut first = [0; 8];
    first.copy_from_slice(&digest[..8]);
    first
}

/// The tests pass for the containers and for nothing else, and a container has one list of parts.
pub fn one_container()
    ensures passes { (bytes : List ℕ) (parts : Parts) → IsContainer bytes parts
        → first_failing bytes ≡ None }
    ensures found { (bytes : List ℕ) → IsBytes bytes → first_failing bytes ≡ None
        → IsContainer bytes (parts_in bytes) }
    ensures one { (bytes : List ℕ) (parts other : Parts) → IsContainer bytes parts
        → IsContainer bytes other → parts ≡ other }
{}

/// A container that is cut short is no container, and it is refused by where it is cut.
pub fn cut_short()
    ensures short { (bytes : List ℕ) (parts : Parts) (n : ℕ) → IsContainer bytes parts → n < 56
        → first_failing (take n bytes) ≡ Some FrameFault.Short }
    ensures counts { (bytes : List ℕ) (parts : Parts) (n : ℕ) → IsContainer bytes parts → 56 ≤ n
        → n < 56 + 4 * length (elements parts)
        → first_failing (take n bytes) ≡ Some FrameFault.Counts }
    ensures length { (bytes : List ℕ) (parts : Parts) (n : ℕ) → IsContainer bytes parts
        → 56 + 4 * length (elements parts) ≤ n → n < length bytes
        → first_failing (take n bytes) ≡ Some FrameFault.Length }
{}
