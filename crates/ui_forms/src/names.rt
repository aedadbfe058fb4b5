// The names of sources.
ghost use Rattle.std.specs.Prelude.{◌≡◌, ◌∷◌, ◌++◌, ◌||◌, ℕ, List, true, false, map, IfOk, OnOk};
ghost use Rattle.std.specs.Prelude.{MatchOption, if◌then◌else◌};
ghost use Rattle.std.specs.List.{list_all};
ghost use Rattle.ui_forms.specs.Choosing.{IsSet};
ghost use Rattle.ui_forms.specs.Form as form;
ghost use Rattle.ui_forms.specs.Form.{are_new, is_among, segments};
ghost use Rattle.ui_forms.specs.Numbers.{has};
ghost use Rattle.ui_forms.specs.Sums.{nothing};

use crate::numbers::Numbers;
use crate::part::{ConstantSum, ImportPath, Part};
use crate::words::last_segment;
use std::alloc::Global;
use ui_base::NoMemory;

/// The last segments of imports.
pub(crate) fn segments_of(alloc: Global, imports: &[ImportPath]) -> Result<Numbers, NoMemory>
    ensures { IfOk result (λ names. IsSet names (segments imports.now)) }
{
    let mut names = Numbers::new(alloc);
    for import in imports {
        names.add(last_segment(import.path.bytes()), 0)?;
    }
    Ok(names)
}

// Whether the last segments of imports differ, and are none of the names.
fn are_apart(alloc: Global, names: &Numbers, imports: &[ImportPath]) -> Result<bool, NoMemory>
    ensures { IfOk result (λ apart. apart ≡ form.are_apart (has names.now) (segments imports.now)) }
{
    let mut before = Numbers::new(alloc);
    for import in imports {
        let segment = last_segment(import.path.bytes());
        if names.has(segment) {
            return Ok(false);
        }
        if !before.add(segment, 0)? {
            return Ok(false);
        }
    }
    Ok(true)
}

// Whether this holds of the imports of each source.
fn all_apart(alloc: Global, names: &Numbers, parts: &[Part]) -> Result<bool, NoMemory>
    ensures { IfOk result (λ apart. apart ≡ list_all
        (λ p. form.are_apart (has names.now) (segments p.imports)) parts.now) }
{
    for part in parts {
        if !are_apart(alloc, names, part.imports.as_slice())? {
            return Ok(false);
        }
    }
    Ok(true)
}

// Adds the names of constants. Gives false where one is there.
fn add_names(names: &mut Numbers, constants: &[ConstantSum]) -> Result<bool, NoMemory>
    ensures new { IfOk result (λ new. (rest : List (List ℕ))
        → are_new (has names.old) (map (λ c. c.name) constants.now ++ rest)
        ≡ (if new then are_new (has names.new) rest else false)) }
    ensures added { IfOk result (λ new. new ≡ true → (text : List ℕ)
        → has names.new text ≡ (is_among (map (λ c. c.name) constants.now) text || has names.old
        text)) }
{
    for constant in constants {
        if !names.add(constant.name.bytes(), 0)? {
            return Ok(false);
        }
    }
    Ok(true)
}

// The names of all constants, or nothing where one is repeated.
fn names_of(alloc: Global, parts: &[Part]) -> Result<Option<Numbers>, NoMemory>
    ensures new { IfOk result (λ names. MatchOption names (are_new nothing (form.names parts.now)
        ≡ false) (λ m. are_new nothing (form.names parts.now) ≡ true)) }
    ensures set { IfOk result (λ names. MatchOption names (Unit {0})
        (λ m. IsSet m (form.names parts.now))) }
{
    let mut names = Numbers::new(alloc);
    for part in parts {
        if !add_names(&mut names, part.constants.as_slice())? {
            return Ok(None);
        }
    }
    Ok(Some(names))
}

/// Whether no name of sources is repeated.
pub(crate) fn are_distinct(alloc: Global, parts: &[Part]) -> Result<bool, NoMemory>
    ensures { IfOk result (λ distinct. distinct ≡ form.are_distinct parts.now) }
{
    match names_of(alloc, parts)? {
        Some(names) => all_apart(alloc, &names, parts),
        None => Ok(false),
    }
}
