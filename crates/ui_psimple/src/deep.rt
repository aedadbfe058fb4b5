//! What was read, with its depth.

ghost use Rattle.std.specs.Prelude.{◌≡◌, IfOk, suc};
ghost use Rattle.ui_tree.specs.StmtView.{stmt_view};
ghost use Rattle.ui_stmts.specs.Common.{sized};
ghost use Rattle.ui_syntax.specs.Types.{any_end};
ghost use Rattle.ui_psimple.specs.Parts.{no_statement};
ghost use Rattle.ui_psimple.specs.Seen.{see_stmt, no_parts, added};

use std::alloc::Global;
use ui_base::NoMemory;
use ui_parse::Ends;
use ui_ptype::deeper;
use ui_tree::{Boxed, Items, StmtTree};

/// What was read, with its depth.
#[derive(Drop)]
pub struct Deep<T> {
    pub of: T,
    pub depth: u32,
}

/// A statement with its depth.
pub type StmtSub = Deep<Boxed<StmtTree>>;

impl<T: Drop> Deep<Items<T>> {
    /// None yet.
    pub fn empty(alloc: Global) -> Deep<Items<T>>
        ensures { result ≡ no_parts }
    {
        Deep {
            of: Items::new(alloc),
            depth: 0,
        }
    }

    /// One more at the end, so deep.
    pub fn add(self, part: T, depth: u32) -> Result<Deep<Items<T>>, NoMemory>
        ensures { IfOk result (λ l. l ≡ added self part depth) }
    {
        let Deep {
            mut of,
            depth: deepest,
        } = self;
        match of.push(part) {
            Ok(()) => Ok(Deep {
                of,
                depth: deepest.max(depth),
            }),
            Err(fault) => Err(fault),
        }
    }
}

impl<T> Ends for Deep<Items<T>> {
    ghost ending = { any_end };

    fn may_end(&self) -> bool {
        true
    }

    fn must_end(&self) -> bool {
        false
    }
}

/// A statement without words.
#[tactic(auto, using(crate::specs::StmtViews::view_Empty))]
pub fn empty_stmt(alloc: Global) -> Result<StmtSub, NoMemory>
    ensures { IfOk result (λ s. see_stmt s ≡ no_statement) }
{
    match Boxed::new(alloc, StmtTree::Empty) {
        Ok(of) => Ok(Deep { of, depth: 1 }),
        Err(fault) => Err(fault),
    }
}

/// A statement over parts so deep.
pub fn stmt_over(alloc: Global, tree: StmtTree, depth: u32) -> Result<StmtSub, NoMemory>
    ensures { IfOk result (λ s. see_stmt s ≡ sized (stmt_view tree) (suc depth)) }
{
    let of = Boxed::new(alloc, tree)?;
    match deeper(depth) {
        Ok(depth) => Ok(Deep { of, depth }),
        Err(fault) => Err(fault),
    }
}
