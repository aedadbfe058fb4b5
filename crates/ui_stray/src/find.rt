ghost use Rattle.std.specs.Prelude.{◌≡◌, IfOk, vec_len};
ghost use Rattle.ui_file.specs.declared.file.File.{File};
ghost use Rattle.ui_file.specs.Rules.{IsReached, count_in};
ghost use Rattle.ui_file_rules.specs.First.{Gives};
ghost use Rattle.ui_sections.specs.Spelled.{IsSpelled};
ghost use Rattle.ui_stray.specs.Links.{AreStarts, before, roots_by};
ghost use Rattle.ui_stray.specs.Marks.{AreReached};

use crate::links::{all_links, starts};
use crate::stray_rule::Stray;
use crate::table::number;
use std::alloc::Global;
use ui_closure::reached;
use ui_file_rules::{Place, first_place};
use ui_frame::{Frame, NoMemory};

// The numbers of the roots.
fn roots(alloc: Global, starts: &[usize]) -> Result<Vec<usize>, NoMemory>
    ensures { IfOk result (λ v. v.items ≡ roots_by starts.now) }
{
    let mut roots = Vec::new(alloc);
    roots.push(number(starts, 1, 0))?;
    roots.push(number(starts, 1, 1))?;
    Ok(roots)
}

// For each element whether the roots reach it.
fn marks(alloc: Global, starts: &[usize], frame: &Frame<'_>) -> Result<Vec<bool>, NoMemory>
    requires started { AreStarts frame.now starts.now }
    requires spelled { (x : File) × IsSpelled frame.now x }
    ensures size { IfOk result (λ marks. vec_len marks ≡ before frame.now 10) }
    ensures reached { IfOk result (λ marks. (x : File) → IsSpelled frame.now x
        → AreReached frame.now x marks.items) }
{
    let links = all_links(alloc, starts, frame)?;
    let roots = roots(alloc, starts)?;
    reached(alloc, &links, &roots)
}

/// The first element of a file that its roots don't reach, through uses and, with an Obj, the
/// elements of its number beside it.
pub fn first_stray<'a>(alloc: Global, frame: &'a Frame<'a>) -> Result<Option<Place>, NoMemory>
    requires { (x : File) × IsSpelled frame.now x }
    ensures { (x : File) → IsSpelled frame.now x → IfOk result (Gives (IsReached x) (count_in x)) }
{
    let starts = starts(alloc, frame)?;
    let marks = marks(alloc, &starts, frame)?;
    let rule = Stray {
        frame: &*frame,
        starts: &starts,
        marks: &marks,
    };
    first_place(alloc, &rule)
}
