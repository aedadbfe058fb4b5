ghost use Rattle.std.specs.Prelude.{◌≡◌, ◌≤◌, IfOk, length, drop};
ghost use Rattle.ui_frame.specs.Reading.{placed};
ghost use Rattle.ui_file.specs.Files as files;
ghost use Rattle.ui_sections.specs.Fronts.{IsAfter};

use ui_frame::{NumFault, get_uint};

// The place after an entry of a table.
#[tactic(auto, using(crate::proofs::Fronts::entry_cut, crate::proofs::Fronts::index_cut, crate::proofs::Fronts::entry_read))]
fn after_entry(bytes: &[u8], at: usize) -> Result<usize, NumFault>
    requires { at ≤ length bytes.now }
    ensures read { IsAfter bytes.now result (files.after_entry (drop at bytes.now)) }
    ensures within { IfOk result (λ place. place ≤ length bytes.now) }
{
    let (_, index) = get_uint(bytes, at)?;
    let (_, next) = get_uint(bytes, index)?;
    Ok(next)
}

// The place after so many entries.
#[tactic(auto, using(crate::proofs::Fronts::entries_cut, crate::proofs::Fronts::entries_more, crate::proofs::Fronts::entries_done))]
fn after_entries(bytes: &[u8], at: usize, count: u64) -> Result<usize, NumFault>
    requires { at ≤ length bytes.now }
    ensures read { IsAfter bytes.now result (files.after_entries count (drop at bytes.now)) }
    ensures within { IfOk result (λ place. place ≤ length bytes.now) }
{
    let mut place = at;
    for _ in 0..count {
        place = after_entry(bytes, place)?;
    }
    Ok(place)
}

#[tactic(auto, using(crate::proofs::Fronts::count_cut, crate::proofs::Fronts::table_cut, crate::proofs::Fronts::zero_cut, crate::proofs::Fronts::params_cut, crate::proofs::Fronts::params_read))]
fn params_in(bytes: &[u8]) -> Result<u64, NumFault>
    ensures { result ≡ files.params_in bytes.now }
{
    let (count, at) = get_uint(bytes, 0)?;
    let at = after_entries(bytes, at, count)?;
    let (_, at) = get_uint(bytes, at)?;
    let (params, _) = get_uint(bytes, at)?;
    Ok(params)
}

/// The number of parameters that stands in an ObjDict.
#[tactic(auto, using(crate::proofs::Fronts::no_params, crate::proofs::Fronts::some_params))]
pub(crate) fn params_of(bytes: &[u8]) -> u32
    ensures { result ≡ files.params_of bytes.now }
{
    match params_in(bytes) {
        Ok(params) => params.min(u64::from(u32::MAX)) as u32,
        Err(_) => 0,
    }
}
