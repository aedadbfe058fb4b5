//! Functions and methods, behind the keyword. Go specification, "Function declarations" and "Method
//! declarations".

ghost use Rattle.std.specs.Prelude.{◌≡◌, ◌<◌, max};
ghost use Rattle.ui_parse.specs.View.{Reads};
ghost use Rattle.ui_ptype.specs.Seen.{results_tree, results_depth};
ghost use Rattle.ui_tree.specs.Stmt.{method_decl, func_decl};
ghost use Rattle.ui_tree.specs.StmtView.{decl_view, receiver_view, maybe_groups, maybe_type_view};
ghost use Rattle.ui_tree.specs.StmtView.{groups_view};
ghost use Rattle.std.specs.Option.{option_map};
ghost use Rattle.ui_tree.specs.View.{type_view, maybe_type};
ghost use Rattle.ui_stmts.specs.Common.{sized};
ghost use Rattle.ui_stmts.specs.Decls as spec;
ghost use Rattle.ui_pstmt.specs.Seen.{see_block};
ghost use Rattle.ui_psimple.specs.Seen.{see_deep};
ghost use Rattle.ui_pdecl.specs.Parts.{func_named, method_named};
ghost use Rattle.ui_pdecl.specs.Seen.{see_signature};

use crate::budgets::body;
use crate::receivers::receiver;
use crate::type_params::type_params;
use std::alloc::Global;
use ui_base::Spot;
use ui_parse::{Cursor, ParseError};
use ui_pread::{params, results};
use ui_psimple::Deep;
use ui_pstmt::BlockSub;
use ui_ptype::{TypeSub, deeper};
use ui_scan::TokenKind;
use ui_tree::{Boxed, DeclTree, Group, Items, Placed, Receiver, Sig, TypeExpr};

/// The parameters and results of a function, with their depth.
pub(crate) type Signature = Deep<Sig<Boxed<TypeExpr>>>;

/// The type parameters of a function, or none, with their depth.
pub(crate) type MaybeParams = Deep<Option<Items<Group<Boxed<TypeExpr>>>>>;

fn result_of(results: Option<TypeSub>) -> Deep<Option<Boxed<TypeExpr>>>
    ensures tree { maybe_type (option_map type_view result.of) ≡ results_tree results }
    ensures depth { result.depth ≡ results_depth results }
{
    match results {
        Some(found) => Deep {
            of: Some(found.tree),
            depth: found.depth,
        },
        None => Deep { of: None, depth: 0 },
    }
}

// Params [ Type | Params ]
#[tactic(auto, unfolding(ui_stmts::specs::Decls::signature))]
fn signature(alloc: Global, words: &mut Cursor<'_>, room: u32) -> Result<Signature, ParseError>
    ensures { Reads (see_signature room) (spec.signature room words.old) result words.new }
{
    words.expect(TokenKind::LParen)?;
    let params = params(alloc, words, room)?;
    match results(alloc, words, room) {
        Ok(results) => {
            let results = result_of(results);
            match deeper(params.depth.max(results.depth)) {
                Ok(depth) => Ok(Deep {
                    of: Sig {
                        params: params.items,
                        results: results.of,
                    },
                    depth,
                }),
                Err(_) => Err(ParseError::NoMemory),
            }
        }
        Err(fault) => Err(fault),
    }
}

// A method behind its name.
fn method_named(
    alloc: Global,
    words: &mut Cursor<'_>,
    room: u32,
    spot: Spot,
    receiver: Receiver,
    name: Placed,
) -> Result<Deep<DeclTree>, ParseError>
    requires { room < 4294967295 }
    ensures { Reads (see_deep decl_view) (method_named room spot
        (receiver_view receiver) name words.old) result words.new }
{
    match signature(alloc, words, room) {
        Ok(sig) => match body(alloc, words, room) {
            Ok(body) => Ok(method_of(spot, receiver, name, sig, body)),
            Err(fault) => Err(fault),
        },
        Err(fault) => Err(fault),
    }
}

fn method_of(
    spot: Spot,
    receiver: Receiver,
    name: Placed,
    sig: Signature,
    body: BlockSub,
) -> Deep<DeclTree>
    ensures { see_deep decl_view result ≡ sized
        (method_decl spot (receiver_view receiver) name (groups_view sig.of.params)
        (maybe_type_view sig.of.results) (see_block body).of) (max sig.depth body.depth) }
{
    Deep {
        of: DeclTree::Method {
            spot,
            receiver,
            name,
            sig: sig.of,
            body: body.of,
        },
        depth: sig.depth.max(body.depth),
    }
}

fn func_of(
    spot: Spot,
    name: Placed,
    params: MaybeParams,
    sig: Signature,
    body: BlockSub,
) -> Deep<DeclTree>
    ensures { see_deep decl_view result ≡ sized
        (func_decl spot name (maybe_groups params.of) (groups_view sig.of.params)
        (maybe_type_view sig.of.results) (see_block body).of)
        (max params.depth (max sig.depth body.depth)) }
{
    let depth = params.depth.max(sig.depth.max(body.depth));
    Deep {
        of: DeclTree::Func {
            spot,
            name,
            params: params.of,
            sig: sig.of,
            body: body.of,
        },
        depth,
    }
}

fn method(
    alloc: Global,
    words: &mut Cursor<'_>,
    room: u32,
    spot: Spot,
    receiver: Receiver,
) -> Result<Deep<DeclTree>, ParseError>
    requires { room < 4294967295 }
    ensures { Reads (see_deep decl_view) (spec.method_behind room spot
        (receiver_view receiver) words.old) result words.new }
{
    match words.expect_name(alloc) {
        Ok(name) => method_named(alloc, words, room, spot, receiver, name),
        Err(fault) => Err(fault),
    }
}

fn func(
    alloc: Global,
    words: &mut Cursor<'_>,
    room: u32,
    spot: Spot,
    name: Placed,
    params: MaybeParams,
) -> Result<Deep<DeclTree>, ParseError>
    requires { room < 4294967295 }
    ensures { Reads (see_deep decl_view) (spec.func_behind room spot name
        (maybe_groups params.of) params.depth words.old) result words.new }
{
    match signature(alloc, words, room) {
        Ok(sig) => match body(alloc, words, room) {
            Ok(body) => Ok(func_of(spot, name, params, sig, body)),
            Err(fault) => Err(fault),
        },
        Err(fault) => Err(fault),
    }
}

// A function behind its name.
#[tactic(auto, unfolding(ui_parse::specs::Reader::take_by))]
fn func_named(
    alloc: Global,
    words: &mut Cursor<'_>,
    room: u32,
    spot: Spot,
    name: Placed,
) -> Result<Deep<DeclTree>, ParseError>
    requires { room < 4294967295 }
    ensures { Reads (see_deep decl_view) (func_named room spot name words.old) result words.new }
{
    if words.take(TokenKind::LBracket).is_none() {
        let none = Deep { of: None, depth: 0 };
        return func(alloc, words, room, spot, name, none);
    }
    match type_params(alloc, words, room) {
        Ok(params) => {
            let params = Deep {
                of: Some(params.groups),
                depth: params.depth,
            };
            func(alloc, words, room, spot, name, params)
        }
        Err(fault) => Err(fault),
    }
}

/// A function or a method, behind its keyword at the spot.
#[tactic(auto, unfolding(ui_stmts::specs::Decls::function, ui_stmts::specs::Decls::receiver, ui_parse::specs::Reader::take_by))]
pub(crate) fn function(
    alloc: Global,
    words: &mut Cursor<'_>,
    room: u32,
    spot: Spot,
) -> Result<Deep<DeclTree>, ParseError>
    requires { room < 4294967295 }
    ensures { Reads (see_deep decl_view) (spec.function room spot words.old) result words.new }
{
    if let Some(open) = words.take(TokenKind::LParen) {
        let receiver = receiver(alloc, words, open)?;
        return method(alloc, words, room, spot, receiver);
    }
    let name = words.expect_name(alloc)?;
    func_named(alloc, words, room, spot, name)
}
