ghost use Rattle.std.specs.Prelude.{◌≡◌, ◌<◌, ◌≤◌, ◌^◌, ◌+◌, ℕ, nat_eq, if◌then◌else◌, MatchOption};
ghost use Rattle.std.specs.Prelude.{IfOk, IfErr, List, [], All, length, map, drop, get_or};
ghost use Rattle.ui_frame.specs.Reading.{uint_at};
ghost use Rattle.ui_frame.specs.Sections.{number_of};
ghost use Rattle.ui_frame.specs.Container.{section as section_in};
ghost use Rattle.ui_strpos.specs.Contexts.{context};
ghost use Rattle.ui_strpos.specs.Items.{target};
ghost use Rattle.ui_strpos.specs.Reading.{State, Gives, Gives_value, IsMemory, uint_in, int_in};
ghost use Rattle.ui_strpos.specs.Reading.{truth_in, use_in, finish_in, located, cause_of, count_of};
ghost use Rattle.ui_strpos.specs.Reading.{below as spec_below, added, used_index, text_of, IsEntry};
ghost use Rattle.ui_strpos.specs.Reading.{entry_in, entries_in, start_in, table_in, Leaves, Starts};
ghost use Rattle.ui_strpos.specs.Reading.{Ends};

use crate::fault::{Cause, ElementFault};
use crate::shape::Shape;
use crate::target::{Table, Target};
use indexmap::IndexSet;
use std::alloc::Global;
use std::marker::Model;
use ui_frame::{Frame, NumFault, Section, get_bool, get_int, get_uint};

/// A reader in an element, at the next field of its data.
///
/// After a fault drop it.
#[derive(Drop)]
pub struct ElementIn<'a> {
    bytes: &'a [u8],
    at: usize,
    table: Table,
    // so many entries of the table were used
    used: usize,
    own: u32,
    shape: Shape,
    frame: &'a Frame<'a>,
}

impl<'a> Model for ElementIn<'a> {
    ghost use Rattle.std.specs.Prelude.{◌≤◌, ℕ, ◌<◌, length, drop, map, All};
    ghost use Rattle.ui_strpos.specs.Reading.{State, IsEntry};
    ghost use Rattle.ui_strpos.specs.Contexts.{context};

    ghost Value = { State };

    ghost view = { λ s. record {
      context = context s.own s.shape s.frame.now;
      table = s.table.keys;
      used = s.used;
      place = s.at;
      rest = drop s.at s.bytes.now;
    } };

    ghost invariant = { λ s. (s.at ≤ length s.bytes.now) × (s.used ≤ length s.table.keys)
        × All (IsEntry (map length s.frame.now)) s.table.keys };
}

fn bad(offset: usize, fault: NumFault) -> ElementFault
    ensures { result ≡ ElementFault.Bad offset (cause_of fault) }
{
    let cause = match fault {
        NumFault::Cut => Cause::Cut,
        NumFault::LongNumber => Cause::LongNumber,
        NumFault::BadBool => Cause::BadBool,
    };
    ElementFault::Bad { offset, cause }
}

// The number at a place, and the place after it.
fn number(bytes: &[u8], at: usize) -> Result<(u64, usize), ElementFault>
    requires { at ≤ length bytes.now }
    ensures read { result ≡ located at (uint_at (drop at bytes.now)) }
    ensures within { IfOk result (λ x. x.1 ≤ length bytes.now) }
{
    match get_uint(bytes, at) {
        Ok(found) => Ok(found),
        Err(fault) => Err(bad(at, fault)),
    }
}

// The section of a number.
fn section_of(n: u64) -> Option<Section>
    ensures { MatchOption result (10 ≤ n) (λ s. (n < 10) × (number_of s ≡ n)) }
{
    match n {
        0 => Some(Section::Str),
        1 => Some(Section::Meta),
        2 => Some(Section::PosBase),
        3 => Some(Section::Pkg),
        4 => Some(Section::Name),
        5 => Some(Section::Types),
        6 => Some(Section::Obj),
        7 => Some(Section::ObjExt),
        8 => Some(Section::ObjDict),
        9 => Some(Section::Body),
        _ => None,
    }
}

// The number of elements of a section, which is told by its number.
#[tactic(auto, using(crate::specs::Contexts::count_is))]
fn count(frame: &Frame<'_>, section: u64, offset: usize) -> Result<u32, ElementFault>
    ensures read { Gives_value (λ _. section) result
        (spec_below 10 offset Cause.BadSection section) }
    ensures known { IfOk result (λ _. section < 10) }
    ensures count { IfOk result (λ n. n ≡ get_or (map length frame.now) section 0) }
{
    match section_of(section) {
        Some(s) => Ok(frame.count(s)),
        None => Err(ElementFault::Bad {
            offset,
            cause: Cause::BadSection,
        }),
    }
}

// A number that has to be below a count.
fn below(n: u64, limit: u32, offset: usize) -> Result<u32, ElementFault>
    ensures read { Gives_value (λ x. x) result (spec_below limit offset Cause.BadIndex n) }
    ensures below { IfOk result (λ x. x < limit) }
    ensures same { IfOk result (λ x. x ≡ n) }
{
    if n < limit as u64 {
        return Ok(n as u32);
    }
    Err(ElementFault::Bad {
        offset,
        cause: Cause::BadIndex,
    })
}

// Adds an entry that isn't there yet.
#[tactic(auto, using(crate::specs::Tables::has_target))]
fn add(table: &mut Table, offset: usize, target: Target) -> Result<(), ElementFault>
    ensures read { Gives_value (λ _. table.new.keys) result (added table.old.keys offset target) }
    ensures longer { length table.old.keys ≤ length table.new.keys }
    ensures known { (counts : List ℕ) → IsEntry counts target → All (IsEntry counts) table.old.keys
        → All (IsEntry counts) table.new.keys }
{
    if table.insert(target)? {
        return Ok(());
    }
    Err(ElementFault::Bad {
        offset,
        cause: Cause::TableOrder,
    })
}

// How many entries are used after a use of entry k.
fn used_after(used: usize, k: usize) -> usize
    requires { k < 2 ^ 63 }
    ensures { result ≡ (if nat_eq k used then used + 1 else used) }
{
    if k == used { used + 1 } else { used }
}

// The number of the element in entry k, for a use of a section.
fn entry_index(
    table: &[Target],
    used: usize,
    section: u32,
    offset: usize,
    k: u64,
) -> Result<u32, ElementFault>
    ensures read { Gives_value (λ x. x) result (used_index section offset used table.now k) }
    ensures within { IfOk result (λ _. k < length table.now) }
    ensures no_memory { IfErr result (λ e. ¬ IsMemory e) }
    ensures known { IfOk result (λ x. (counts : List ℕ) → All (IsEntry counts) table.now
        → x < get_or counts section 0) }
{
    if k >= table.len() as u64 {
        return Err(ElementFault::Bad {
            offset,
            cause: Cause::BadIndex,
        });
    }
    let k = k as usize;
    let entry = table[k];
    if entry.section != section {
        return Err(ElementFault::Bad {
            offset,
            cause: Cause::BadSection,
        });
    }
    if k > used {
        return Err(ElementFault::Bad {
            offset,
            cause: Cause::TableOrder,
        });
    }
    Ok(entry.index)
}

fn text_at<'a>(frame: &Frame<'a>, k: u32) -> &'a [u8]
    requires { k < length (section_in Section.Str frame.now) }
    ensures { result.now ≡ get_or (section_in Section.Str frame.now) k [] }
{
    match frame.element(Section::Str, k) {
        Some(text) => text,
        None => unreachable!(),
    }
}

impl<'a> ElementIn<'a> {
    /// Reads the table at the front of an element's bytes, and stands at the first field of its
    /// data.
    ///
    /// `own` is the element's number, and `frame` gives the numbers of elements and the String
    /// elements; the bytes need not stand in it. The fault is the first of the table.
    pub fn new(
        alloc: Global,
        bytes: &'a [u8],
        own: u32,
        frame: &'a Frame<'a>,
        shape: &Shape,
    ) -> Result<ElementIn<'a>, ElementFault>
        ensures { Starts result (start_in (context own shape.now frame.now) bytes.now) }
    {
        let mut input = ElementIn {
            bytes,
            at: 0,
            table: IndexSet::new(alloc),
            used: 0,
            own,
            shape: *shape,
            frame,
        };
        input.table()?;
        Ok(input)
    }

    #[tactic(auto, unfolding(crate::specs::Reading::table_in))]
    fn table(&mut self) -> Result<(), ElementFault>
        ensures { Leaves result self.new (table_in self.old) }
    {
        let count = self.uint()?;
        self.entries(count)
    }

    fn entries(&mut self, count: u64) -> Result<(), ElementFault>
        ensures { Leaves result self.new (entries_in count self.old) }
    {
        'entries: for _ in 0..count {
            self.entry()?;
        }
        Ok(())
    }

    #[tactic(auto, unfolding(crate::specs::Reading::entry_in))]
    fn entry(&mut self) -> Result<(), ElementFault>
        ensures { Leaves result self.new (entry_in self.old) }
    {
        let place = self.at;
        let (section, index_at) = number(self.bytes, place)?;
        let limit = count(self.frame, section, place)?;
        let (index, next) = number(self.bytes, index_at)?;
        let index = below(index, limit, index_at)?;
        let target = Target {
            section: section as u32,
            index,
        };
        add(&mut self.table, place, target)?;
        self.at = next;
        Ok(())
    }

    /// The bytes of String element `k`, which stand in the frame.
    pub fn text(&self, k: u32) -> &'a [u8]
        requires { k < length self.now.context.texts }
        ensures { result.now ≡ text_of self.now.context k }
    {
        let frame = self.frame;
        text_at(frame, k)
    }

    /// The element's number.
    pub fn own(&self) -> u32
        ensures { result ≡ self.now.context.own }
    {
        self.own
    }

    /// The element's shape.
    pub fn shape(&self) -> &Shape
        ensures { result.now ≡ self.now.context.shape }
    {
        &self.shape
    }

    /// The offset of the next field.
    pub fn place(&self) -> usize
        ensures { result ≡ self.now.place }
    {
        self.at
    }

    /// Reads a number. Takes no memory.
    pub fn uint(&mut self) -> Result<u64, ElementFault>
        ensures read { Gives (λ n. n) result self.new (uint_in self.old) }
        ensures no_memory { IfErr result (λ e. ¬ IsMemory e) }
        ensures context { self.new.context ≡ self.old.context }
    {
        let at = self.at;
        match get_uint(self.bytes, at) {
            Ok((n, next)) => {
                self.at = next;
                Ok(n)
            }
            Err(fault) => Err(bad(at, fault)),
        }
    }

    /// Reads a signed number. Takes no memory.
    pub fn int(&mut self) -> Result<i64, ElementFault>
        ensures read { Gives (λ n. n) result self.new (int_in self.old) }
        ensures no_memory { IfErr result (λ e. ¬ IsMemory e) }
        ensures context { self.new.context ≡ self.old.context }
    {
        let at = self.at;
        match get_int(self.bytes, at) {
            Ok((n, next)) => {
                self.at = next;
                Ok(n)
            }
            Err(fault) => Err(bad(at, fault)),
        }
    }

    /// Reads a truth value. Takes no memory.
    pub fn truth(&mut self) -> Result<bool, ElementFault>
        ensures read { Gives (λ n. n) result self.new (truth_in self.old) }
        ensures no_memory { IfErr result (λ e. ¬ IsMemory e) }
        ensures context { self.new.context ≡ self.old.context }
    {
        let at = self.at;
        match get_bool(self.bytes, at) {
            Ok((n, next)) => {
                self.at = next;
                Ok(n)
            }
            Err(fault) => Err(bad(at, fault)),
        }
    }

    /// Reads the use of an element of a section, and gives the element's number there. Takes no
    /// memory.
    #[tactic(auto, using(crate::specs::Contexts::text_count), unfolding(crate::specs::Reading::use_in))]
    pub fn target(&mut self, s: Section) -> Result<u32, ElementFault>
        ensures read { Gives (λ n. n) result self.new (use_in (number_of s) self.old) }
        ensures no_memory { IfErr result (λ e. ¬ IsMemory e) }
        ensures context { self.new.context ≡ self.old.context }
        ensures known { IfOk result (λ k. k < count_of self.old.context (number_of s)) }
        ensures text { IfOk result (λ k. number_of s ≡ 0 → k < length self.new.context.texts) }
    {
        let section = s.number();
        let at = self.at;
        let (k, next) = number(self.bytes, at)?;
        let index = entry_index(self.table.as_slice(), self.used, section, at, k)?;
        self.used = used_after(self.used, k as usize);
        self.at = next;
        Ok(index)
    }

    /// Tests the end of an element: each entry of the table is used, and no byte is left. Takes no
    /// memory.
    pub fn finish(&mut self) -> Result<(), ElementFault>
        ensures read { Ends result (finish_in self.old) }
        ensures no_memory { IfErr result (λ e. ¬ IsMemory e) }
        ensures same { self.new ≡ self.old }
    {
        if self.used < self.table.len() {
            return Err(ElementFault::Bad {
                offset: 0,
                cause: Cause::TableUse,
            });
        }
        if self.at < self.bytes.len() {
            return Err(ElementFault::Bad {
                offset: self.at,
                cause: Cause::Tail,
            });
        }
        Ok(())
    }
}
