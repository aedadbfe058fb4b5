ghost use Rattle.std.specs.Prelude.{◌≡◌, ℕ, ◌+◌, ◌<◌, ◌≤◌, get_or, false, true, length};
ghost use Rattle.ui_frame.specs.Container.{section};
ghost use Rattle.ui_frame.specs.Sections.{number_of};
ghost use Rattle.ui_file_rules.specs.First.{FirstOf};
ghost use Rattle.ui_stray.specs.Links.{before, AreStarts};

use std::alloc::Global;
use ui_file_rules::FileRule;
use ui_frame::{Frame, NoMemory, Section};

/// That each element is marked.
#[derive(Drop)]
pub(crate) struct Stray<'a> {
    pub(crate) frame: &'a Frame<'a>,
    pub(crate) starts: &'a [usize],
    pub(crate) marks: &'a [bool],
    pub(crate) ghost started: { AreStarts frame.now starts.now },
    pub(crate) ghost long: { length marks.now ≡ before frame.now 10 },
}

// The first of so many marks from a place on that isn't set.
fn first_unmarked(marks: &[bool], from: usize, many: usize) -> Option<usize>
    requires { from + many ≤ length marks.now }
    ensures { FirstOf (λ k. get_or marks.now (from + k) false ≡ true) many result }
{
    for k in 0..many {
        if !marks[from + k] {
            return Some(k);
        }
    }
    None
}

// Where a section starts.
fn start(starts: &[usize], s: Section) -> usize
    ensures { result ≡ get_or starts.now (number_of s) 0 }
{
    match starts.get(s.number() as usize) {
        Some(start) => *start,
        None => 0,
    }
}

impl FileRule for Stray<'_> {
    ghost use Rattle.std.specs.Prelude.{◌≡◌, get_or, false, true, length};
    ghost use Rattle.ui_frame.specs.Container.{section};
    ghost use Rattle.ui_stray.specs.Links.{number_in};

    ghost keeps = { λ r s k. get_or r.marks.now (number_in r.frame.now s k) false ≡ true };

    ghost count = { λ r s. length (section s r.frame.now) };

    #[tactic(auto, using(crate::proofs::Puts::marks_fit, crate::proofs::Puts::first_at))]
    fn first_in(&self, _alloc: Global, s: Section) -> Result<Option<usize>, NoMemory> {
        let from = start(self.starts, s);
        let found = first_unmarked(self.marks, from, self.frame.count(s) as usize);
        Ok(found)
    }
}
