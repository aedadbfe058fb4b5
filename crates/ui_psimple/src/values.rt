//! Constants and variables. Go specification, "Constant declarations" and "Variable declarations".

ghost use Rattle.std.specs.Prelude.{◌≡◌, Some, None};
ghost use Rattle.ui_parse.specs.View.{Reads};
ghost use Rattle.ui_ptype.specs.Seen.{see_type, see_maybe};
ghost use Rattle.ui_tree.specs.StmtView.{value_view, common_view};
ghost use Rattle.ui_stmts.specs.Common as spec;
ghost use Rattle.ui_stmts.specs.Common.{constant, variable};
ghost use Rattle.ui_tree.specs.Stmt.{ValueGroup};
ghost use Rattle.ui_psimple.specs.Parts.{untaken_constant, typed_variable};
ghost use Rattle.ui_psimple.specs.Seen.{see_deep, see_values};

use crate::deep::Deep;
use crate::groups::{SpecReader, one_or_several};
use crate::lists::{exprs, names};
use std::alloc::Global;
use ui_base::Spot;
use ui_parse::{Cursor, ParseError};
use ui_pread::{maybe_type, type_of_budget};
use ui_ptype::{Subs, TypeSub};
use ui_scan::TokenKind;
use ui_syntax::TypeSite;
use ui_tree::{CommonTree, Items, Placed, ValueSpec};

fn untyped(names: Items<Placed>, values: Option<Subs>) -> Deep<ValueSpec>
    ensures { see_deep value_view result ≡ spec.value_of names None (see_values values) }
{
    match values {
        None => Deep {
            of: ValueSpec {
                names,
                of: None,
                values: None,
            },
            depth: 0,
        },
        Some(values) => Deep {
            of: ValueSpec {
                names,
                of: None,
                values: Some(values.items),
            },
            depth: values.depth,
        },
    }
}

fn typed(names: Items<Placed>, of: TypeSub, values: Option<Subs>) -> Deep<ValueSpec>
    ensures { see_deep value_view result ≡ spec.value_of names (Some (see_type of))
        (see_values values) }
{
    match values {
        None => Deep {
            of: ValueSpec {
                names,
                of: Some(of.tree.into_inner()),
                values: None,
            },
            depth: of.depth,
        },
        Some(values) => Deep {
            of: ValueSpec {
                names,
                of: Some(of.tree.into_inner()),
                values: Some(values.items),
            },
            depth: of.depth.max(values.depth),
        },
    }
}

fn value_of(names: Items<Placed>, of: Option<TypeSub>, values: Option<Subs>) -> Deep<ValueSpec>
    ensures { see_deep value_view result ≡ spec.value_of names (see_maybe of) (see_values values) }
{
    match of {
        None => untyped(names, values),
        Some(of) => typed(names, of, values),
    }
}

// Behind "=".
fn values(
    alloc: Global,
    words: &mut Cursor<'_>,
    budget: u32,
    names: Items<Placed>,
    of: Option<TypeSub>,
) -> Result<Deep<ValueSpec>, ParseError>
    ensures { Reads (see_deep value_view) (spec.values budget names (see_maybe of) words.old) result
        words.new }
{
    match exprs(alloc, words, budget, false) {
        Ok(values) => Ok(value_of(names, of, Some(values))),
        Err(fault) => Err(fault),
    }
}

// "=" and values, behind the type.
fn typed_constant(
    alloc: Global,
    words: &mut Cursor<'_>,
    budget: u32,
    names: Items<Placed>,
    of: TypeSub,
) -> Result<Deep<ValueSpec>, ParseError>
    ensures { Reads (see_deep value_view) (spec.constant_behind budget names
        (Some (see_type of)) words.old) result words.new }
{
    match words.expect(TokenKind::Assign) {
        Ok(_) => values(alloc, words, budget, names, Some(of)),
        Err(fault) => Err(fault),
    }
}

// Where no "=" follows the names: a type has to have values.
fn constant_behind(
    alloc: Global,
    words: &mut Cursor<'_>,
    budget: u32,
    names: Items<Placed>,
) -> Result<Deep<ValueSpec>, ParseError>
    ensures { Reads (see_deep value_view) (untaken_constant budget names words.old) result
        words.new }
{
    match maybe_type(alloc, words, budget, TypeSite::Plain) {
        Ok(Some(of)) => typed_constant(alloc, words, budget, names, of),
        Ok(None) => Ok(value_of(names, None, None)),
        Err(fault) => Err(fault),
    }
}

#[tactic(auto, unfolding(ui_stmts::specs::Common::constant, ui_parse::specs::Reader::take_by))]
fn constant(
    alloc: Global,
    words: &mut Cursor<'_>,
    budget: u32,
) -> Result<Deep<ValueSpec>, ParseError>
    ensures { Reads (see_deep value_view) (spec.constant budget words.old) result words.new }
{
    let names = names(alloc, words)?;
    if budget == 0 {
        return Ok(value_of(names, None, None));
    }
    match words.take(TokenKind::Assign) {
        Some(_) => values(alloc, words, budget, names, None),
        None => constant_behind(alloc, words, budget, names),
    }
}

// Where no "=" follows the names.
#[tactic(auto, unfolding(ui_parse::specs::Reader::take_by))]
fn typed_variable(
    alloc: Global,
    words: &mut Cursor<'_>,
    budget: u32,
    names: Items<Placed>,
) -> Result<Deep<ValueSpec>, ParseError>
    ensures { Reads (see_deep value_view) (typed_variable budget names words.old) result words.new }
{
    match type_of_budget(alloc, words, budget) {
        Ok(of) => match words.take(TokenKind::Assign) {
            Some(_) => values(alloc, words, budget, names, Some(of)),
            None => Ok(value_of(names, Some(of), None)),
        },
        Err(fault) => Err(fault),
    }
}

#[tactic(auto, unfolding(ui_stmts::specs::Common::variable, ui_parse::specs::Reader::take_by))]
fn variable(
    alloc: Global,
    words: &mut Cursor<'_>,
    budget: u32,
) -> Result<Deep<ValueSpec>, ParseError>
    ensures { Reads (see_deep value_view) (spec.variable budget words.old) result words.new }
{
    if budget == 0 {
        return Err(ParseError::Fault);
    }
    let names = names(alloc, words)?;
    match words.take(TokenKind::Assign) {
        Some(_) => values(alloc, words, budget, names, None),
        None => typed_variable(alloc, words, budget, names),
    }
}

/// Reads constants within a budget.
#[derive(Clone, Copy)]
pub struct Constants {
    alloc: Global,
    budget: u32,
}

impl SpecReader for Constants {
    type Spec = ValueSpec;

    ghost Seen = { ValueGroup };

    ghost see = { value_view };

    ghost reader = { λ c. constant c.budget };

    fn read(&self, words: &mut Cursor<'_>) -> Result<Deep<ValueSpec>, ParseError> {
        constant(self.alloc, words, self.budget)
    }
}

/// Reads variables within a budget.
#[derive(Clone, Copy)]
pub struct Variables {
    alloc: Global,
    budget: u32,
}

impl SpecReader for Variables {
    type Spec = ValueSpec;

    ghost Seen = { ValueGroup };

    ghost see = { value_view };

    ghost reader = { λ v. variable v.budget };

    fn read(&self, words: &mut Cursor<'_>) -> Result<Deep<ValueSpec>, ParseError> {
        variable(self.alloc, words, self.budget)
    }
}

/// Constants, behind the keyword at the spot.
#[tactic(auto, unfolding(ui_stmts::specs::Common::constant_decl))]
pub fn constant_decl(
    alloc: Global,
    words: &mut Cursor<'_>,
    budget: u32,
    spot: Spot,
) -> Result<Deep<CommonTree>, ParseError>
    ensures { Reads (see_deep common_view) (spec.constant_decl budget spot words.old) result
        words.new }
{
    let specs = one_or_several(alloc, words, &Constants { alloc, budget })?;
    Ok(Deep {
        of: CommonTree::Const {
            spot,
            specs: specs.of,
        },
        depth: specs.depth,
    })
}

/// Variables, behind the keyword at the spot.
#[tactic(auto, unfolding(ui_stmts::specs::Common::variable_decl))]
pub fn variable_decl(
    alloc: Global,
    words: &mut Cursor<'_>,
    budget: u32,
    spot: Spot,
) -> Result<Deep<CommonTree>, ParseError>
    ensures { Reads (see_deep common_view) (spec.variable_decl budget spot words.old) result
        words.new }
{
    let specs = one_or_several(alloc, words, &Variables { alloc, budget })?;
    Ok(Deep {
        of: CommonTree::Var {
            spot,
            specs: specs.of,
        },
        depth: specs.depth,
    })
}
