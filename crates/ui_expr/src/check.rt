//! What expressions are checked to be.
ghost use Rattle.std.specs.Prelude.{◌≡◌};
ghost use Rattle.ui_types.specs.Kept.{Kept};
ghost use Rattle.ui_tree.specs.View.{view};
ghost use Rattle.ui_scopes.specs.Scopes.{world, IsScope, shown_scope};
ghost use Rattle.ui_scopes.specs.Standing.{Stands};
ghost use Rattle.ui_scopes.specs.Steps.{GivesOperand};
ghost use Rattle.ui_rules.specs.Rules.{operand_of};

use std::alloc::Global;
use ui_operand::{
    binary_operand, in_parens, literal_operand, name_operand, not_taken, selected, unary_operand,
};
use ui_scopes::{Operand, Scope};
use ui_tree::{ExprTree, type_spot};
use ui_types::{CheckFault, Env, TypeTable};

/// What an expression is checked to be, or its first fault: its parts from left to right, and then
/// the rule of its form. The table only grows, and the environment answers as before. Go
/// specification, "Expressions".
#[tactic(auto, using(ui_types::specs::Trees::growth, ui_scopes::specs::Growing::growing, ui_scopes::specs::Standing::standing, ui_types::specs::Kept::keeping, ui_scopes::specs::Steps::stepping, ui_scopes::specs::Scopes::scope_parts, ui_tree::specs::Views::variants), unfolding(ui_rules::specs::Rules::operand_of))]
pub fn check_expr<E: Env>(
    alloc: Global,
    env: &mut E,
    table: &mut TypeTable,
    scope: &Scope,
    tree: &ExprTree,
) -> Result<Operand, CheckFault>
    requires env { Stands E.packages E.decls E.fits env.old table.old }
    requires scope { IsScope table.old scope.now }
    ensures answer { GivesOperand table.new (operand_of (world (E.packages env.old)
        (E.decls env.old table.old)) (shown_scope table.old scope.now) (view tree.now)) result }
    ensures kept { Kept E.packages E.lent E.decls E.fits env.old table.old env.new table.new }
{
    let file = &scope.file;
    match tree {
        ExprTree::Literal { spot, kind, value } => {
            literal_operand(alloc, table, file, *spot, *kind, value)
        }
        ExprTree::Name(name) => name_operand(alloc, env, table, scope, name),
        ExprTree::Paren { spot, of } => {
            let x = check_expr(alloc, env, table, scope, of.get())?;
            in_parens(alloc, table, file, *spot, x)
        }
        ExprTree::Selector { spot, of, member } => {
            let x = check_expr(alloc, env, table, scope, of.get())?;
            selected(alloc, env, table, file, *spot, &member.text, &x)
        }
        ExprTree::Unary { spot, op, of } => {
            let x = check_expr(alloc, env, table, scope, of.get())?;
            unary_operand(alloc, env, table, file, *spot, *op, &x)
        }
        ExprTree::Binary {
            spot,
            op,
            left,
            right,
        } => {
            let x = check_expr(alloc, env, table, scope, left.get())?;
            let y = check_expr(alloc, env, table, scope, right.get())?;
            binary_operand(alloc, env, table, file, *spot, *op, &x, &y)
        }
        ExprTree::Convert { spot, .. }
        | ExprTree::Composite { spot, .. }
        | ExprTree::Elided { spot, .. }
        | ExprTree::Keyed { spot, .. }
        | ExprTree::Instance { spot, .. }
        | ExprTree::Assert { spot, .. }
        | ExprTree::Index { spot, .. }
        | ExprTree::Sliced { spot, .. }
        | ExprTree::Call { spot, .. } => Err(not_taken(alloc, file, *spot)),
        ExprTree::Type(of) => Err(not_taken(alloc, file, type_spot(of.get()))),
    }
}
