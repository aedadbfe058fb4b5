ghost use Rattle.std.specs.Prelude.{◌≡◌, ◌++◌, OnOk, IfOk, length};
ghost use Rattle.ui_frame.specs.Number.{uint};
ghost use Rattle.std.specs.List.{flat_map};
ghost use Rattle.ui_frame.specs.Sections.{number_of};
ghost use Rattle.ui_strpos.specs.Items.{with_item, nothing, spelled, place_in, after_use, entry};
ghost use Rattle.ui_strpos.specs.Items.{UInt, Int, Truth, Use};

use crate::target::{Table, Target};
use indexmap::IndexSet;
use std::alloc::Global;
use std::marker::Model;
use ui_frame::{NoMemory, Section, put_bool, put_int, put_uint};

/// An element that is being written: its table so far, and the bytes of its fields.
///
/// After want of memory in a field call nothing is known of the value: drop it.
#[derive(Drop)]
pub struct ElementOut {
    table: Table,
    bytes: Vec<u8>,
}

impl Model for ElementOut {
    ghost use Rattle.ui_strpos.specs.Items.{Written};

    ghost Value = { Written };

    ghost view = { λ w. record { table = w.table.keys; bytes = w.bytes.items } };
}

// The place of a target in a table, where it comes last if it wasn't there.
#[tactic(auto, using(crate::specs::Tables::has_target))]
fn place(table: &mut Table, target: Target) -> Result<usize, NoMemory>
    ensures place { IfOk result (λ k. k ≡ place_in table.old.keys target) }
    ensures table { OnOk result (table.new.keys ≡ after_use table.old.keys target) }
{
    let (k, _) = table.insert_full(target)?;
    Ok(k)
}

// Appends the spelling of a table.
fn put_table(alloc: Global, out: &mut Vec<u8>, table: &[Target]) -> Result<(), NoMemory>
    ensures { OnOk result (out.new.items ≡ out.old.items ++
        (uint (length table.now) ++ flat_map entry table.now)) }
{
    put_uint(alloc, out, table.len() as u64)?;
    for target in table {
        put_uint(alloc, out, target.section as u64)?;
        put_uint(alloc, out, target.index as u64)?;
    }
    Ok(())
}

impl ElementOut {
    /// An element with no fields yet. Takes no memory.
    pub fn new(alloc: Global) -> ElementOut
        ensures { result ≡ nothing }
    {
        ElementOut {
            table: IndexSet::new(alloc),
            bytes: Vec::new(alloc),
        }
    }

    /// Writes a number.
    pub fn uint(&mut self, alloc: Global, n: u64) -> Result<(), NoMemory>
        ensures { OnOk result (self.new ≡ with_item self.old (UInt n)) }
    {
        put_uint(alloc, &mut self.bytes, n)
    }

    /// Writes a signed number.
    pub fn int(&mut self, alloc: Global, n: i64) -> Result<(), NoMemory>
        ensures { OnOk result (self.new ≡ with_item self.old (Int n)) }
    {
        put_int(alloc, &mut self.bytes, n)
    }

    /// Writes a truth value.
    pub fn truth(&mut self, alloc: Global, b: bool) -> Result<(), NoMemory>
        ensures { OnOk result (self.new ≡ with_item self.old (Truth b)) }
    {
        put_bool(alloc, &mut self.bytes, b)
    }

    /// Writes the use of element `k` of a section: the place of its entry, which is added if it is
    /// the first use.
    pub fn target(&mut self, alloc: Global, s: Section, k: u32) -> Result<(), NoMemory>
        ensures { OnOk result (self.new ≡ with_item self.old (Use (number_of s) k)) }
    {
        let section = s.number();
        let target = Target { section, index: k };
        let at = place(&mut self.table, target)?;
        put_uint(alloc, &mut self.bytes, at as u64)
    }

    /// The bytes of the whole element: the table, and the fields.
    pub fn bytes(self, alloc: Global) -> Result<Vec<u8>, NoMemory>
        ensures { IfOk result (λ v. v.items ≡ spelled self) }
    {
        let ElementOut { table, bytes } = self;
        let mut out = Vec::new(alloc);
        put_table(alloc, &mut out, table.as_slice())?;
        out.extend_from_slice(&bytes)?;
        Ok(out)
    }
}
