ghost use Rattle.std.specs.Prelude.{◌≡◌, ◌<◌, length, map, IfSome};
ghost use Rattle.ui_tree.specs.StmtView.{file_view};
ghost use Rattle.ui_taken.specs.Taken as forms;

use crate::decls::decls_form;
use ui_base::Spot;
use ui_tree::FileTree;

/// What of the language is taken.
#[derive(Clone, Copy, PartialEq, Eq)]
pub enum Taken {
    /// Imports and constants, whose types are names.
    Constants,
    /// Beside them aliases and defined types without parameters and methods, variables with a
    /// written type and no value, and functions without type parameters and results whose body has
    /// no statement.
    Declarations,
}

/// A form that isn't taken: the number of its file, and where its first token stands there.
#[derive(Clone, Copy, PartialEq, Eq)]
pub struct Untaken {
    pub file: usize,
    pub spot: Spot,
}

/// The first form of the files that isn't taken. A form that isn't taken isn't looked into.
#[tactic(auto, using(std::proofs::lemmas::Grind::common_steps, crate::proofs::FirstLemmas::looking), unfolding(crate::specs::Taken::first_untaken))]
pub fn first_untaken(taken: Taken, files: &[FileTree]) -> Option<Untaken>
    ensures first { result ≡ forms.first_untaken taken (map file_view files.now) }
    ensures within { IfSome result (λ u. u.file < length files.now) }
{
    for i in 0..files.len() {
        if let Some(spot) = decls_form(taken, files[i].decls.as_slice()) {
            return Some(Untaken { file: i, spot });
        }
    }
    None
}
