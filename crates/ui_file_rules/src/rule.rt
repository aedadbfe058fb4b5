ghost use Rattle.std.specs.Prelude.{◌≡◌, ℕ, IfOk};
ghost use Rattle.ui_frame.specs.declared.section.Section.{Section};
ghost use Rattle.ui_file_rules.specs.First as specs;
ghost use Rattle.ui_file_rules.specs.First.{FirstOf, Gives};

use std::alloc::Global;
use ui_frame::{NoMemory, Section};

/// An element, by its section and number.
#[derive(Clone, Copy, PartialEq, Eq, Drop)]
pub struct Place {
    pub section: Section,
    pub element: usize,
}

/// What a rule asks of each element.
pub trait FileRule {
    ghost keeps: { Self → Section → ℕ → Type 0 };

    ghost count: { Self → Section → ℕ };

    /// The first element of a section that breaks the rule.
    fn first_in(&self, alloc: Global, s: Section) -> Result<Option<usize>, NoMemory>
        ensures { IfOk result (FirstOf (keeps self.now s) (count self.now s)) };
}

/// The section with a number below ten.
pub fn section_at(n: u32) -> Section
    ensures { result ≡ specs.section_at n }
{
    match n {
        0 => Section::Str,
        1 => Section::Meta,
        2 => Section::PosBase,
        3 => Section::Pkg,
        4 => Section::Name,
        5 => Section::Types,
        6 => Section::Obj,
        7 => Section::ObjExt,
        8 => Section::ObjDict,
        _ => Section::Body,
    }
}

/// The first element that breaks the rule: by section, and then by number.
pub fn first_place<R: FileRule>(alloc: Global, rule: &R) -> Result<Option<Place>, NoMemory>
    ensures { IfOk result (Gives (R.keeps rule.now) (R.count rule.now)) }
{
    for n in 0..10u32 {
        let section = section_at(n);
        if let Some(element) = rule.first_in(alloc, section)? {
            return Ok(Some(Place { section, element }));
        }
    }
    Ok(None)
}
