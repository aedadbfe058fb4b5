//! Type specifications. Go specification, "Type declarations".

ghost use Rattle.std.specs.Prelude.{◌≡◌, ◌<◌, IfOk, max, false};
ghost use Rattle.ui_tree.specs.StmtView.{groups_view};
ghost use Rattle.ui_parse.specs.Reader.{Outcome};
ghost use Rattle.ui_parse.specs.View.{Reads};
ghost use Rattle.ui_tree.specs.StmtView.{type_spec_view};
ghost use Rattle.ui_tree.specs.Stmt.{TypeGroup};
ghost use Rattle.ui_tree.specs.Tree.{groups_end};
ghost use Rattle.ui_ptype.specs.Seen.{see_type};
ghost use Rattle.ui_stmts.specs.Common.{Sized, sized};
ghost use Rattle.ui_stmts.specs.Decls as spec;
ghost use Rattle.ui_psimple.specs.Seen.{see_deep};
ghost use Rattle.ui_pdecl.specs.Parts.{farther_of, bracketed, named_spec};

use crate::budgets::own_type;
use crate::type_params::{TypeParams, type_params_apart};
use std::alloc::Global;
use ui_base::{NoMemory, Spot};
use ui_parse::{Cursor, ParseError};
use ui_pread::bracket_type;
use ui_psimple::{Deep, SpecReader};
use ui_ptype::TypeSub;
use ui_scan::TokenKind;
use ui_syntax::TypeSite;
use ui_tree::{Boxed, Items, Placed, TypeSpec};

// A type specification with its depth.
type SpecSub = Deep<Boxed<TypeSpec>>;

fn spec_sub(alloc: Global, spec: TypeSpec, depth: u32) -> Result<SpecSub, NoMemory>
    ensures { IfOk result (λ s. see_deep type_spec_view s ≡ sized (type_spec_view spec) depth) }
{
    match Boxed::new(alloc, spec) {
        Ok(of) => Ok(Deep { of, depth }),
        Err(fault) => Err(fault),
    }
}

// A type without parameters.
fn spec_of(alloc: Global, name: Placed, alias: bool, of: TypeSub) -> Result<SpecSub, NoMemory>
    ensures { IfOk result (λ s. see_deep type_spec_view s
        ≡ sized (spec.type_group 0 name groups_end alias (see_type of).tree) of.depth) }
{
    let depth = of.depth;
    let spec = TypeSpec {
        name,
        params: Items::new(alloc),
        alias,
        of: of.tree.into_inner(),
    };
    spec_sub(alloc, spec, depth)
}

fn plain_spec(
    alloc: Global,
    words: &mut Cursor<'_>,
    room: u32,
    name: Placed,
    alias: bool,
) -> Result<SpecSub, ParseError>
    requires { room < 4294967295 }
    ensures { Reads (see_deep type_spec_view) (spec.plain_group room name alias words.old) result
        words.new }
{
    match own_type(alloc, words, room) {
        Ok(of) => Ok(spec_of(alloc, name, alias, of)?),
        Err(fault) => Err(fault),
    }
}

// A slice or an array.
fn bracketed_spec(
    alloc: Global,
    words: &mut Cursor<'_>,
    room: u32,
    name: Placed,
    spot: Spot,
) -> Result<SpecSub, ParseError>
    ensures { Reads (see_deep type_spec_view) (spec.bracketed_group room name spot words.old) result
        words.new }
{
    match bracket_type(alloc, words, room, TypeSite::Plain, spot) {
        Ok(of) => Ok(spec_of(alloc, name, false, of)?),
        Err(fault) => Err(fault),
    }
}

// A type with parameters.
fn generic_of(
    alloc: Global,
    name: Placed,
    params: TypeParams,
    of: TypeSub,
) -> Result<SpecSub, NoMemory>
    ensures { IfOk result (λ s. see_deep type_spec_view s
        ≡ sized (spec.type_group 0 name (groups_view params.groups) false (see_type of).tree)
        (max params.depth of.depth)) }
{
    let depth = params.depth.max(of.depth);
    let spec = TypeSpec {
        name,
        params: params.groups,
        alias: false,
        of: of.tree.into_inner(),
    };
    spec_sub(alloc, spec, depth)
}

// Type parameters, and a type.
fn generic_spec(
    alloc: Global,
    words: &mut Cursor<'_>,
    room: u32,
    name: Placed,
) -> Result<SpecSub, ParseError>
    requires { room < 4294967295 }
    ensures { Reads (see_deep type_spec_view) (spec.generic_group room name words.old) result
        words.new }
{
    match type_params_apart(alloc, words, room) {
        Ok(params) => match own_type(alloc, words, room) {
            Ok(of) => Ok(generic_of(alloc, name, params, of)?),
            Err(fault) => Err(fault),
        },
        Err(fault) => Err(fault),
    }
}

// What went farther of two readings, the second of which left the other words; the first where both
// went as far.
fn farther<'a>(
    words: &mut Cursor<'a>,
    other: Cursor<'a>,
    first: Result<SpecSub, ParseError>,
    second: Result<SpecSub, ParseError>,
) -> Result<SpecSub, ParseError>
    ensures { (a b : Outcome (Sized TypeGroup)) → Reads (see_deep type_spec_view) a first words.old
        → Reads (see_deep type_spec_view) b second other.entry
        → Reads (see_deep type_spec_view) (farther_of a b) result words.new }
{
    if matches!(first, Err(ParseError::NoMemory)) || matches!(second, Err(ParseError::NoMemory)) {
        return Err(ParseError::NoMemory);
    }
    if words.left() <= other.left() {
        return first;
    }
    *words = other;
    second
}

// A name of its own with the same text.
fn copy_name(alloc: Global, name: &Placed) -> Result<Placed, NoMemory>
    ensures { IfOk result (λ p. p ≡ name.now) }
{
    match name.text.copy(alloc) {
        Ok(text) => Ok(Placed {
            spot: name.spot,
            text,
        }),
        Err(fault) => Err(fault),
    }
}

// Behind a bracket: a length or parameters.
fn length_or_params(
    alloc: Global,
    words: &mut Cursor<'_>,
    room: u32,
    name: Placed,
    spot: Spot,
) -> Result<SpecSub, ParseError>
    requires { room < 4294967295 }
    ensures { Reads (see_deep type_spec_view) (bracketed room name spot words.old) result
        words.new }
{
    if room == 0 {
        return generic_spec(alloc, words, room, name);
    }
    let Ok(copy) = copy_name(alloc, &name) else {
        return Err(ParseError::NoMemory);
    };
    let mut other = words.fork();
    let length = bracketed_spec(alloc, words, room, name, spot);
    let params = generic_spec(alloc, &mut other, room, copy);
    farther(words, other, length, params)
}

#[tactic(auto, unfolding(ui_parse::specs::Reader::take_by))]
fn named_spec(
    alloc: Global,
    words: &mut Cursor<'_>,
    room: u32,
    name: Placed,
) -> Result<SpecSub, ParseError>
    requires { room < 4294967295 }
    ensures { Reads (see_deep type_spec_view) (named_spec room name words.old) result words.new }
{
    if words.take(TokenKind::Assign).is_some() {
        return plain_spec(alloc, words, room, name, true);
    }
    match words.take(TokenKind::LBracket) {
        Some(spot) => length_or_params(alloc, words, room, name, spot),
        None => plain_spec(alloc, words, room, name, false),
    }
}

// name [ TPars ] Type | name "=" Type
#[tactic(auto, unfolding(ui_stmts::specs::Decls::type_spec))]
fn type_spec(alloc: Global, words: &mut Cursor<'_>, room: u32) -> Result<Deep<TypeSpec>, ParseError>
    requires { room < 4294967295 }
    ensures { Reads (see_deep type_spec_view) (spec.type_spec room words.old) result words.new }
{
    let name = words.expect_name(alloc)?;
    let spec = named_spec(alloc, words, room, name)?;
    Ok(Deep {
        of: spec.of.into_inner(),
        depth: spec.depth,
    })
}

/// Reads type specifications whose parts have so much room.
#[derive(Clone, Copy)]
pub(crate) struct TypeSpecs {
    pub alloc: Global,
    pub room: u32,
    ghost below: { room < 4294967295 },
}

impl SpecReader for TypeSpecs {
    ghost use Rattle.std.specs.Prelude.{◌-◌};
    ghost use Rattle.ui_tree.specs.Stmt.{TypeGroup};
    ghost use Rattle.ui_tree.specs.StmtView.{type_spec_view};
    ghost use Rattle.ui_stmts.specs.Decls.{type_spec};

    type Spec = TypeSpec;

    ghost Seen = { TypeGroup };

    ghost see = { type_spec_view };

    ghost reader = { λ t. type_spec (t.room) };

    fn read(&self, words: &mut Cursor<'_>) -> Result<Deep<TypeSpec>, ParseError> {
        type_spec(self.alloc, words, self.room)
    }
}
