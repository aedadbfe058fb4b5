//! Type parameters, behind the bracket. Go specification, "Type parameter declarations".

ghost use Rattle.std.specs.Prelude.{◌≡◌, IfOk};
ghost use Rattle.ui_parse.specs.Reader as reader;
ghost use Rattle.ui_parse.specs.View.{Reads};
ghost use Rattle.ui_scan.specs.declared.kind.TokenKind.TheVariants.{Comma, RBracket};
ghost use Rattle.ui_ptype.specs.Seen.{see_type, see_maybe};
ghost use Rattle.ui_stmts.specs.Decls as spec;
ghost use Rattle.ui_pdecl.specs.Parts.{with_bound, param_named};
ghost use Rattle.ui_pdecl.specs.Seen.{see_type_params, groups_seen};

use crate::lengths::is_length;
use std::alloc::Global;
use ui_base::NoMemory;
use ui_parse::{Cursor, Ends, ParseError, more_parts, parts};
use ui_pread::{plain_type, tilde, union_from};
use ui_ptype::TypeSub;
use ui_scan::TokenKind;
use ui_tree::{Boxed, Group, Items, Placed, TypeExpr};

/// Type parameters as far as they were read, with the names that wait for a bound.
#[derive(Drop)]
pub struct TypeParams {
    pub groups: Items<Group<Boxed<TypeExpr>>>,
    pub waiting: Items<Placed>,
    pub depth: u32,
}

impl Ends for TypeParams {
    ghost use Rattle.ui_pdecl.specs.Seen.{type_params_ending};

    ghost ending = { type_params_ending };

    fn may_end(&self) -> bool {
        self.waiting.is_empty()
    }

    fn must_end(&self) -> bool {
        false
    }
}

// One more group, of these names with their bound.
fn bounded(
    alloc: Global,
    groups: Items<Group<Boxed<TypeExpr>>>,
    names: Items<Placed>,
    depth: u32,
    bound: TypeSub,
) -> Result<TypeParams, NoMemory>
    ensures { IfOk result (λ ps. see_type_params ps ≡ with_bound (groups_seen groups) names depth
        (see_type bound)) }
{
    let mut groups = groups;
    let group = Group {
        names,
        of: bound.tree,
    };
    match groups.push(group) {
        Ok(()) => Ok(TypeParams {
            groups,
            waiting: Items::new(alloc),
            depth: depth.max(bound.depth),
        }),
        Err(fault) => Err(fault),
    }
}

impl TypeParams {
    fn new(alloc: Global) -> TypeParams
        ensures { see_type_params result ≡ spec.no_type_params }
    {
        TypeParams {
            groups: Items::new(alloc),
            waiting: Items::new(alloc),
            depth: 0,
        }
    }

    // One more name, with its bound or with none.
    fn add(
        self,
        alloc: Global,
        name: Placed,
        bound: Option<TypeSub>,
    ) -> Result<TypeParams, NoMemory>
        ensures { IfOk result (λ ps. see_type_params ps ≡ spec.add_bound (see_type_params self) name
            (see_maybe bound)) }
    {
        let TypeParams {
            groups,
            mut waiting,
            depth,
        } = self;
        match waiting.push(name) {
            Ok(()) => match bound {
                Some(bound) => bounded(alloc, groups, waiting, depth, bound),
                None => Ok(TypeParams {
                    groups,
                    waiting,
                    depth,
                }),
            },
            Err(fault) => Err(fault),
        }
    }
}

// Term { "|" Term }, or none.
#[tactic(auto, unfolding(ui_parse::specs::Reader::take_by))]
fn maybe_bound(
    alloc: Global,
    words: &mut Cursor<'_>,
    room: u32,
) -> Result<Option<TypeSub>, ParseError>
    ensures { Reads see_maybe (spec.maybe_bound room words.old) result words.new }
{
    if let Some(spot) = words.take(TokenKind::Tilde) {
        let first = tilde(alloc, words, room, spot)?;
        return union_from(alloc, words, room, first);
    }
    match plain_type(alloc, words, room)? {
        Some(first) => union_from(alloc, words, room, first),
        None => Ok(None),
    }
}

// The bound behind a name, or none.
#[tactic(auto, using(crate::proofs::ParamSteps::bound_fault, crate::proofs::ParamSteps::bound_read))]
fn param_named(
    alloc: Global,
    words: &mut Cursor<'_>,
    room: u32,
    params: TypeParams,
    name: Placed,
) -> Result<TypeParams, ParseError>
    ensures { Reads see_type_params (param_named room (see_type_params params) name words.old)
        result words.new }
{
    match maybe_bound(alloc, words, room) {
        Ok(bound) => Ok(params.add(alloc, name, bound)?),
        Err(fault) => Err(fault),
    }
}

fn type_param(
    alloc: Global,
    words: &mut Cursor<'_>,
    room: u32,
    params: TypeParams,
) -> Result<TypeParams, ParseError>
    ensures { Reads see_type_params (spec.type_param room (see_type_params params) words.old) result
        words.new }
{
    match words.expect_name(alloc) {
        Ok(name) => param_named(alloc, words, room, params, name),
        Err(fault) => Err(fault),
    }
}

fn first_param(alloc: Global, words: &mut Cursor<'_>, room: u32) -> Result<TypeParams, ParseError>
    ensures { Reads see_type_params (spec.type_param room spec.no_type_params words.old) result
        words.new }
{
    type_param(alloc, words, room, TypeParams::new(alloc))
}

// What follows a part, up to the bracket.
fn more_params(
    alloc: Global,
    words: &mut Cursor<'_>,
    room: u32,
    params: TypeParams,
) -> Result<TypeParams, ParseError>
    ensures { Reads see_type_params (reader.more_parts Comma RBracket spec.type_params_ending
        (spec.type_param room) (see_type_params params) words.old) result words.new }
{
    more_parts(
        words,
        TokenKind::Comma,
        TokenKind::RBracket,
        params,
        &|words: &mut Cursor<'_>, params| type_param(alloc, words, room, params),
    )
}

// Likewise behind a comma.
fn params_behind(
    alloc: Global,
    words: &mut Cursor<'_>,
    room: u32,
    params: TypeParams,
) -> Result<TypeParams, ParseError>
    ensures { Reads see_type_params (reader.parts Comma RBracket spec.type_params_ending
        (spec.type_param room) (see_type_params params) words.old) result words.new }
{
    parts(
        words,
        TokenKind::Comma,
        TokenKind::RBracket,
        params,
        &|words: &mut Cursor<'_>, params| type_param(alloc, words, room, params),
    )
}

/// The type parameters of a function.
#[tactic(auto, unfolding(ui_stmts::specs::Decls::type_params))]
pub(crate) fn type_params(
    alloc: Global,
    words: &mut Cursor<'_>,
    room: u32,
) -> Result<TypeParams, ParseError>
    ensures { Reads see_type_params (spec.type_params room words.old) result words.new }
{
    let first = first_param(alloc, words, room)?;
    more_params(alloc, words, room, first)
}

// Behind a first part that is an array's length too there has to be a comma.
fn apart(
    alloc: Global,
    words: &mut Cursor<'_>,
    room: u32,
    params: TypeParams,
) -> Result<TypeParams, ParseError>
    ensures { Reads see_type_params (spec.apart room (see_type_params params) words.old) result
        words.new }
{
    if !is_length(params.groups.as_slice()) {
        return more_params(alloc, words, room, params);
    }
    match words.expect(TokenKind::Comma) {
        Ok(_) => params_behind(alloc, words, room, params),
        Err(fault) => Err(fault),
    }
}

/// The type parameters of a type, whose text is no array's length.
#[tactic(auto, unfolding(ui_stmts::specs::Decls::type_params_apart))]
pub(crate) fn type_params_apart(
    alloc: Global,
    words: &mut Cursor<'_>,
    room: u32,
) -> Result<TypeParams, ParseError>
    ensures { Reads see_type_params (spec.type_params_apart room words.old) result words.new }
{
    let first = first_param(alloc, words, room)?;
    apart(alloc, words, room, first)
}
