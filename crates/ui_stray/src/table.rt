ghost use Rattle.std.specs.Prelude.{◌≡◌, ◌≤◌, ◌++◌, length, drop, map, OnOk, IfOk};
ghost use Rattle.ui_stray.specs.Links.{entry_at, entries_at, table_at, target_number};
ghost use Rattle.ui_strpos.specs.Items.{target};
ghost use Rattle.ui_stray.specs.Entries.{ReadsEntry};

use ui_frame::{NoMemory, NumFault, get_uint};

/// An entry of a table, and the place after it.
#[derive(Drop)]
pub(crate) struct Entry {
    pub(crate) section: u64,
    pub(crate) index: u64,
    pub(crate) next: usize,
}

#[tactic(auto, using(crate::proofs::Tables::entry_cut, crate::proofs::Tables::index_cut, crate::proofs::Tables::entry_read))]
fn read_entry(bytes: &[u8], at: usize) -> Result<Entry, NumFault>
    requires { at ≤ length bytes.now }
    ensures read { ReadsEntry bytes.now result (entry_at (drop at bytes.now)) }
    ensures within { IfOk result (λ e. e.next ≤ length bytes.now) }
{
    let (section, place) = get_uint(bytes, at)?;
    let (index, next) = get_uint(bytes, place)?;
    Ok(Entry {
        section,
        index,
        next,
    })
}

/// The number of an element, by where the sections start.
pub(crate) fn number(starts: &[usize], section: u64, index: u64) -> usize
    ensures { result ≡ target_number starts.now (target section index) }
{
    let start = match starts.get(section as usize) {
        Some(start) => *start,
        None => 0,
    };
    start.saturating_add(index as usize)
}

// Appends the numbers of so many entries, as far as they stand there.
#[tactic(auto, using(crate::proofs::Tables::one_put, crate::proofs::Tables::cut_put, crate::proofs::Tables::all_put))]
fn put_entries(
    starts: &[usize],
    bytes: &[u8],
    at: usize,
    count: u64,
    out: &mut Vec<usize>,
) -> Result<(), NoMemory>
    requires { at ≤ length bytes.now }
    ensures { OnOk result (out.new.items
        ≡ out.old.items ++ map (target_number starts.now) (entries_at count (drop at bytes.now))) }
{
    let mut place = at;
    for _ in 0..count {
        let found = match read_entry(bytes, place) {
            Ok(found) => found,
            Err(_) => return Ok(()),
        };
        out.push(number(starts, found.section, found.index))?;
        place = found.next;
    }
    Ok(())
}

/// Appends the numbers of the targets in the table at the front of an element's bytes.
#[tactic(auto, using(crate::proofs::Tables::table_put, crate::proofs::Tables::no_table))]
pub(crate) fn put_table(
    starts: &[usize],
    bytes: &[u8],
    out: &mut Vec<usize>,
) -> Result<(), NoMemory>
    ensures { OnOk result (out.new.items
        ≡ out.old.items ++ map (target_number starts.now) (table_at bytes.now)) }
{
    match get_uint(bytes, 0) {
        Ok((count, at)) => put_entries(starts, bytes, at, count, out),
        Err(_) => Ok(()),
    }
}
