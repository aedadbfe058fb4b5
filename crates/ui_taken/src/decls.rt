// The first form of a declaration that isn't taken.
ghost use Rattle.std.specs.Prelude.{◌≡◌, map};
ghost use Rattle.std.specs.Option.{option_map};
ghost use Rattle.ui_tree.specs.View.{maybe_type, type_view};
ghost use Rattle.ui_tree.specs.StmtView.{block_view, decl_view, groups_view, maybe_groups};
ghost use Rattle.ui_tree.specs.StmtView.{maybe_type_view, specs_with, type_spec_view, value_view};
ghost use Rattle.ui_taken.specs.Taken as forms;
ghost use Rattle.ui_taken.specs.Firsts.{first_in};

use crate::exprs::{no_values, values_form};
use crate::taken::Taken;
use crate::types::{groups_form, name_form, result_form, type_form};
use ui_base::Spot;
use ui_tree::{
    Block, Boxed, CommonTree, DeclTree, Group, Items, Placed, Sig, Specs, StmtTree, TypeExpr,
    TypeSpec, ValueSpec,
};

// Where the first name of a specification stands.
fn names_spot(word: Spot, names: &[Placed]) -> Spot
    ensures { result ≡ forms.names_spot word names.now }
{
    match names {
        [] => word,
        [first, ..] => first.spot,
    }
}

// The type of a constant.
fn const_type(taken: Taken, of: &Option<TypeExpr>) -> Option<Spot>
    ensures { result ≡ forms.const_type taken (maybe_type_view of.now) }
{
    match of {
        None => None,
        Some(of) => match taken {
            Taken::Constants => name_form(of),
            Taken::Declarations => type_form(of),
        },
    }
}

// A specification of constants.
fn const_form(taken: Taken, spec: &ValueSpec) -> Option<Spot>
    ensures { result ≡ forms.const_form taken (value_view spec.now) }
{
    match const_type(taken, &spec.of) {
        Some(spot) => Some(spot),
        None => values_form(&spec.values),
    }
}

// A specification of variables, which begins here.
fn var_form(at: Spot, spec: &ValueSpec) -> Option<Spot>
    ensures { result ≡ forms.var_form at (value_view spec.now) }
{
    match &spec.of {
        None => Some(at),
        Some(of) => match type_form(of) {
            Some(spot) => Some(spot),
            None => no_values(&spec.values),
        },
    }
}

// A specification of a type, which begins here.
fn type_spec_form(at: Spot, spec: &TypeSpec) -> Option<Spot>
    ensures { result ≡ forms.type_spec_form at (type_spec_view spec.now) }
{
    match spec.params.as_slice() {
        [] => type_form(&spec.of),
        [_, ..] => Some(at),
    }
}

// Constants in parentheses.
fn const_group(taken: Taken, list: &[ValueSpec]) -> Option<Spot>
    ensures { result ≡ first_in (forms.const_form taken) (map value_view list.now) }
{
    for spec in list {
        if let Some(spot) = const_form(taken, spec) {
            return Some(spot);
        }
    }
    None
}

// Variables in parentheses.
fn var_group(word: Spot, list: &[ValueSpec]) -> Option<Spot>
    ensures { result ≡ first_in (λ v. forms.var_form (forms.names_spot word v.names) v) (map
        value_view list.now) }
{
    for spec in list {
        if let Some(spot) = var_form(names_spot(word, spec.names.as_slice()), spec) {
            return Some(spot);
        }
    }
    None
}

// Types in parentheses.
fn type_group(list: &[TypeSpec]) -> Option<Spot>
    ensures { result ≡ first_in (λ t. forms.type_spec_form t.name.spot t) (map type_spec_view
        list.now) }
{
    for spec in list {
        if let Some(spot) = type_spec_form(spec.name.spot, spec) {
            return Some(spot);
        }
    }
    None
}

fn consts_form(taken: Taken, specs: &Specs<ValueSpec>) -> Option<Spot>
    ensures { result ≡ forms.consts_form taken (specs_with value_view specs.now) }
{
    match specs {
        Specs::One(spec) => const_form(taken, spec),
        Specs::Grouped(list) => const_group(taken, list.as_slice()),
    }
}

fn vars_form(word: Spot, specs: &Specs<ValueSpec>) -> Option<Spot>
    ensures { result ≡ forms.vars_form word (specs_with value_view specs.now) }
{
    match specs {
        Specs::One(spec) => var_form(word, spec),
        Specs::Grouped(list) => var_group(word, list.as_slice()),
    }
}

fn type_specs_form(word: Spot, specs: &Specs<TypeSpec>) -> Option<Spot>
    ensures { result ≡ forms.type_specs_form word (specs_with type_spec_view specs.now) }
{
    match specs {
        Specs::One(spec) => type_spec_form(word, spec),
        Specs::Grouped(list) => type_group(list.as_slice()),
    }
}

// A body with these results.
fn body_form(results: &Option<Boxed<TypeExpr>>, body: &Block<StmtTree>) -> Option<Spot>
    ensures { result ≡ forms.body_form (maybe_type (option_map type_view results.now)) (block_view
        body.now) }
{
    match results {
        None => match body.stmts.as_slice() {
            [] => None,
            [_, ..] => Some(body.spot),
        },
        Some(_) => Some(body.spot),
    }
}

// A signature and its body.
fn sig_form(sig: &Sig<Boxed<TypeExpr>>, body: &Block<StmtTree>) -> Option<Spot>
    ensures { (at : Spot) → result ≡ forms.func_form at (maybe_groups None) (groups_view
        sig.now.params) (maybe_type_view sig.now.results) (block_view body.now) }
{
    match groups_form(sig.params.as_slice()) {
        Some(spot) => Some(spot),
        None => match result_form(&sig.results) {
            Some(spot) => Some(spot),
            None => body_form(&sig.results, body),
        },
    }
}

fn func_form(
    at: Spot,
    params: &Option<Items<Group<Boxed<TypeExpr>>>>,
    sig: &Sig<Boxed<TypeExpr>>,
    body: &Block<StmtTree>,
) -> Option<Spot>
    ensures { result ≡ forms.func_form at (maybe_groups params.now) (groups_view sig.now.params)
        (maybe_type_view sig.now.results) (block_view body.now) }
{
    match params {
        Some(_) => Some(at),
        None => sig_form(sig, body),
    }
}

// A declaration where all kinds of declarations are taken.
fn any_decl(decl: &DeclTree) -> Option<Spot>
    ensures { result ≡ forms.decl_form Taken.Declarations (decl_view decl.now) }
{
    match decl {
        DeclTree::Common(CommonTree::Const { specs, .. }) => {
            consts_form(Taken::Declarations, specs)
        }
        DeclTree::Common(CommonTree::Var { spot, specs }) => vars_form(*spot, specs),
        DeclTree::Type { spot, specs } => type_specs_form(*spot, specs),
        DeclTree::Method { spot, .. } => Some(*spot),
        DeclTree::Func {
            spot,
            params,
            sig,
            body,
            ..
        } => func_form(*spot, params, sig, body),
    }
}

// A declaration where constants alone are taken.
fn constant_decl(decl: &DeclTree) -> Option<Spot>
    ensures { result ≡ forms.decl_form Taken.Constants (decl_view decl.now) }
{
    match decl {
        DeclTree::Common(CommonTree::Const { specs, .. }) => consts_form(Taken::Constants, specs),
        DeclTree::Common(CommonTree::Var { spot, .. })
        | DeclTree::Type { spot, .. }
        | DeclTree::Method { spot, .. }
        | DeclTree::Func { spot, .. } => Some(*spot),
    }
}

fn decl_form(taken: Taken, decl: &DeclTree) -> Option<Spot>
    ensures { result ≡ forms.decl_form taken (decl_view decl.now) }
{
    match taken {
        Taken::Constants => constant_decl(decl),
        Taken::Declarations => any_decl(decl),
    }
}

// The first of a file's declarations.
pub(crate) fn decls_form(taken: Taken, list: &[DeclTree]) -> Option<Spot>
    ensures { result ≡ first_in (forms.decl_form taken) (map decl_view list.now) }
{
    for decl in list {
        if let Some(spot) = decl_form(taken, decl) {
            return Some(spot);
        }
    }
    None
}
