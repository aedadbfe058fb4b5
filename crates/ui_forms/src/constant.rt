// The constants of a source.
ghost use Rattle.std.specs.Prelude.{◌≡◌, map};
ghost use Rattle.std.specs.Option.{option_copied, option_map};
ghost use Rattle.ui_tree.specs.StmtView.{decl_view, maybe_trees, value_view, specs_with};
ghost use Rattle.ui_tree.specs.View.{view};
ghost use Rattle.ui_forms.specs.Choosing.{GivesPart};
ghost use Rattle.ui_forms.specs.Form as form;
ghost use Rattle.ui_forms.specs.Numbers.{has};
ghost use Rattle.ui_forms.specs.Sums as sums;
ghost use Rattle.ui_forms.specs.Sums.{nothing};

use crate::fault::PartFault;
use crate::numbers::Numbers;
use crate::part::ConstantSum;
use crate::spots::is_place;
use crate::sums::terms_of;
use crate::words::is_constant_name;
use std::alloc::Global;
use ui_base::Spot;
use ui_tree::{CommonTree, DeclTree, ExprTree, Items, Placed, Specs, ValueSpec, type_spot};

/// The most bytes of a constant's name.
const NAME_LIMIT: usize = 4096;

// Whether a constant may have the name.
fn is_declared_name(name: &Placed) -> bool
    ensures { result ≡ form.is_declared_name name.now }
{
    is_constant_name(name.text.bytes())
        && name.text.bytes().len() <= NAME_LIMIT
        && is_place(name.spot)
}

// The only name, if a constant may have it.
fn one_name(names: &[Placed]) -> Option<&Placed>
    ensures { option_copied result ≡ form.one_name names.now }
{
    match names {
        [name] => {
            if is_declared_name(name) {
                Some(name)
            } else {
                None
            }
        }
        _ => None,
    }
}

// The only expression.
fn one_tree(trees: &Option<Items<ExprTree>>) -> Option<&ExprTree>
    ensures { option_map (λ e. view e.now) result ≡ form.one_tree (maybe_trees trees.now) }
{
    match trees {
        Some(trees) => match trees.as_slice() {
            [] => None,
            [tree] => Some(tree),
            [_, _, ..] => None,
        },
        None => None,
    }
}

// A constant of a name and an expression.
fn declared_as(
    alloc: Global,
    imports: &Numbers,
    own: &Numbers,
    name: &Placed,
    tree: &ExprTree,
) -> Result<ConstantSum, PartFault>
    ensures { GivesPart (form.declared_as name.now
        (sums.terms_of (has imports.now) (has own.now) (view tree.now))) result }
{
    let terms = terms_of(alloc, imports, own, tree)?;
    let text = name.text.copy(alloc)?;
    Ok(ConstantSum {
        name: text,
        spot: name.spot,
        terms,
    })
}

// `NAME = SUM` behind a word at this place.
fn constant_of_group(
    alloc: Global,
    imports: &Numbers,
    own: &Numbers,
    spot: Spot,
    group: &ValueSpec,
) -> Result<ConstantSum, PartFault>
    ensures { GivesPart (form.constant_of_group (has imports.now) (has own.now) spot
        (value_view group.now)) result }
{
    let Some(name) = one_name(group.names.as_slice()) else {
        return Err(PartFault::NotTaken(spot));
    };
    let Some(tree) = one_tree(&group.values) else {
        return Err(PartFault::NotTaken(spot));
    };
    match &group.of {
        Some(of) => Err(PartFault::NotTaken(type_spot(of))),
        None => declared_as(alloc, imports, own, name, tree),
    }
}

// `NAME = SUM` without parentheses.
fn constant_of_specs(
    alloc: Global,
    imports: &Numbers,
    own: &Numbers,
    spot: Spot,
    specs: &Specs<ValueSpec>,
) -> Result<ConstantSum, PartFault>
    ensures { GivesPart (form.constant_of_specs (has imports.now) (has own.now) spot
        (specs_with value_view specs.now)) result }
{
    match specs {
        Specs::One(group) => constant_of_group(alloc, imports, own, spot, group),
        Specs::Grouped(_) => Err(PartFault::NotTaken(spot)),
    }
}

// `const NAME = SUM`
fn constant_of(
    alloc: Global,
    imports: &Numbers,
    own: &Numbers,
    decl: &DeclTree,
) -> Result<ConstantSum, PartFault>
    ensures { GivesPart (form.constant_of (has imports.now) (has own.now) (decl_view decl.now))
        result }
{
    match decl {
        DeclTree::Common(CommonTree::Const { spot, specs }) => {
            constant_of_specs(alloc, imports, own, *spot, specs)
        }
        DeclTree::Common(CommonTree::Var { spot, .. })
        | DeclTree::Type { spot, .. }
        | DeclTree::Method { spot, .. }
        | DeclTree::Func { spot, .. } => Err(PartFault::NotTaken(*spot)),
    }
}

/// The constants of a source whose imports have these names.
pub(crate) fn constants_in(
    alloc: Global,
    imports: &Numbers,
    decls: &[DeclTree],
) -> Result<Items<ConstantSum>, PartFault>
    ensures { GivesPart (form.constants_of (has imports.now) nothing (map decl_view decls.now))
        result }
{
    let mut own = Numbers::new(alloc);
    let mut constants = Items::new(alloc);
    for decl in decls {
        let constant = constant_of(alloc, imports, &own, decl)?;
        own.add(constant.name.bytes(), 0)?;
        constants.push(constant)?;
    }
    Ok(constants)
}
