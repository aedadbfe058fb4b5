// What declarations say of their names.
#![tactic(auto, using(std::proofs::lemmas::Grind::common_steps, crate::proofs::ItemLemmas::adding))]

ghost use Rattle.std.specs.Prelude.{◌≡◌, ◌∷◌, [], length, map, IfOk, OnOk};
ghost use Rattle.std.specs.List.{flat_map};
ghost use Rattle.ui_tree.specs.View.{trees, view};
ghost use Rattle.ui_tree.specs.StmtView.{decl_view, file_view, specs_with, type_spec_view};
ghost use Rattle.ui_tree.specs.StmtView.{value_view};
ghost use Rattle.ui_collect.specs.Items as shown;
ghost use Rattle.ui_collect.specs.Views.{Adds, item_view, maybe_at, spec_at, what_view};

use std::alloc::Global;
use ui_base::{NoMemory, Spot};
use ui_tree::{
    Boxed, CommonTree, DeclTree, ExprTree, FileTree, Placed, Sig, Specs, TypeExpr, TypeSpec,
    ValueSpec,
};

/// What a declaration says of its name.
#[derive(Drop)]
pub enum What<'a> {
    /// Another name of a type.
    Alias(&'a TypeExpr),
    /// A new type, declared as this.
    Defined(&'a TypeExpr),
    /// A variable, with its type where one is written.
    Var(Option<&'a TypeExpr>),
    /// A constant; a specification without expressions has the type and the expressions of the
    /// last one before that has some.
    Const {
        iota: usize,
        of: Option<&'a TypeExpr>,
        value: &'a ExprTree,
    },
    /// A constant of a specification whose names and expressions differ in number, and where the
    /// specification begins.
    Miscounted {
        iota: usize,
        at: Spot,
        of: Option<&'a TypeExpr>,
        values: &'a [ExprTree],
    },
    /// A function, by its signature.
    Func(&'a Sig<Boxed<TypeExpr>>),
}

/// A declared name, and the number of its file.
#[derive(Drop)]
pub struct Item<'a> {
    pub file: usize,
    pub name: &'a Placed,
    pub what: What<'a>,
}

// One more.
fn add<'a>(
    found: &mut Vec<Item<'a>>,
    file: usize,
    name: &'a Placed,
    what: What<'a>,
) -> Result<(), NoMemory>
    ensures { OnOk result (Adds found.old.items found.new.items (shown.item file (what_view
        what.entry) name.now ∷ [])) }
{
    found.push(Item { file, name, what })?;
    Ok(())
}

// ---- constants

// Where the first name stands.
fn first_spot(names: &[Placed]) -> Spot
    ensures { result ≡ shown.first_spot names.now }
{
    match names {
        [] => Spot { line: 0, col: 0 },
        [first, ..] => first.spot,
    }
}

// Constants, each with the expression at its place.
fn add_valued<'a>(
    found: &mut Vec<Item<'a>>,
    file: usize,
    iota: usize,
    of: Option<&'a TypeExpr>,
    names: &'a [Placed],
    values: &'a [ExprTree],
) -> Result<(), NoMemory>
    requires { length names.now ≡ length values.now }
    ensures { OnOk result (Adds found.old.items found.new.items (shown.valued_items file iota
        (maybe_at of.entry) names.now (trees (map view values.now)))) }
{
    for i in 0..names.len() {
        let what = What::Const {
            iota,
            of,
            value: &values[i],
        };
        add(found, file, &names[i], what)?;
    }
    Ok(())
}

// Constants of a specification whose names and expressions differ in number.
fn add_miscounted<'a>(
    found: &mut Vec<Item<'a>>,
    file: usize,
    iota: usize,
    of: Option<&'a TypeExpr>,
    names: &'a [Placed],
    values: &'a [ExprTree],
) -> Result<(), NoMemory>
    ensures { OnOk result (Adds found.old.items found.new.items (map (shown.item file
        (shown.miscounted iota (shown.first_spot names.now) (maybe_at of.entry) (trees (map view
        values.now)))) names.now)) }
{
    let at = first_spot(names);
    for name in names {
        let what = What::Miscounted {
            iota,
            at,
            of,
            values,
        };
        add(found, file, name, what)?;
    }
    Ok(())
}

// Constants with this type and these expressions.
fn add_constants<'a>(
    found: &mut Vec<Item<'a>>,
    file: usize,
    iota: usize,
    of: Option<&'a TypeExpr>,
    names: &'a [Placed],
    values: &'a [ExprTree],
) -> Result<(), NoMemory>
    ensures { OnOk result (Adds found.old.items found.new.items (shown.const_items_with file iota
        (maybe_at of.entry) names.now (trees (map view values.now)))) }
{
    if names.len() == values.len() {
        add_valued(found, file, iota, of, names, values)
    } else {
        add_miscounted(found, file, iota, of, names, values)
    }
}

// Constants with the type and the expressions of a specification.
fn add_consts<'a>(
    found: &mut Vec<Item<'a>>,
    file: usize,
    iota: usize,
    names: &'a [Placed],
    from: Option<&'a ValueSpec>,
) -> Result<(), NoMemory>
    ensures { OnOk result (Adds found.old.items found.new.items (shown.const_items file iota
        names.now (spec_at from.entry))) }
{
    match from {
        None => add_constants(found, file, iota, None, names, &[]),
        Some(spec) => match &spec.values {
            None => add_constants(found, file, iota, spec.of.as_ref(), names, &[]),
            Some(values) => add_constants(
                found,
                file,
                iota,
                spec.of.as_ref(),
                names,
                values.as_slice(),
            ),
        },
    }
}

// The specification whose type and expressions apply: this one if it has expressions, else the
// last that has some.
fn repeated<'a>(last: Option<&'a ValueSpec>, spec: &'a ValueSpec) -> Option<&'a ValueSpec>
    ensures { spec_at result ≡ shown.repeated (spec_at last.entry) (value_view spec.now)
        (value_view spec.now).values }
{
    match &spec.values {
        None => last,
        Some(_) => Some(spec),
    }
}

// Constants in parentheses.
fn add_const_group<'a>(
    found: &mut Vec<Item<'a>>,
    file: usize,
    list: &'a [ValueSpec],
) -> Result<(), NoMemory>
    ensures { OnOk result (Adds found.old.items found.new.items (shown.group_items file 0
        shown.no_value (map value_view list.now))) }
{
    let mut last = None;
    for i in 0..list.len() {
        last = repeated(last, &list[i]);
        add_consts(found, file, i, list[i].names.as_slice(), last)?;
    }
    Ok(())
}

fn add_const_specs<'a>(
    found: &mut Vec<Item<'a>>,
    file: usize,
    specs: &'a Specs<ValueSpec>,
) -> Result<(), NoMemory>
    ensures { OnOk result (Adds found.old.items found.new.items (shown.consts_items file
        (specs_with value_view specs.now))) }
{
    match specs {
        Specs::One(spec) => add_consts(found, file, 0, spec.names.as_slice(), Some(spec)),
        Specs::Grouped(list) => add_const_group(found, file, list.as_slice()),
    }
}

// ---- other declarations

fn add_vars<'a>(found: &mut Vec<Item<'a>>, file: usize, spec: &'a ValueSpec) -> Result<(), NoMemory>
    ensures { OnOk result (Adds found.old.items found.new.items (shown.var_items file (value_view
        spec.now))) }
{
    for name in spec.names.as_slice() {
        add(found, file, name, What::Var(spec.of.as_ref()))?;
    }
    Ok(())
}

fn add_var_group<'a>(
    found: &mut Vec<Item<'a>>,
    file: usize,
    list: &'a [ValueSpec],
) -> Result<(), NoMemory>
    ensures { OnOk result (Adds found.old.items found.new.items (flat_map (shown.var_items file)
        (map value_view list.now))) }
{
    for spec in list {
        add_vars(found, file, spec)?;
    }
    Ok(())
}

fn add_var_specs<'a>(
    found: &mut Vec<Item<'a>>,
    file: usize,
    specs: &'a Specs<ValueSpec>,
) -> Result<(), NoMemory>
    ensures { OnOk result (Adds found.old.items found.new.items (shown.specs_items
        (shown.var_items file) (specs_with value_view specs.now))) }
{
    match specs {
        Specs::One(spec) => add_vars(found, file, spec),
        Specs::Grouped(list) => add_var_group(found, file, list.as_slice()),
    }
}

fn add_type<'a>(found: &mut Vec<Item<'a>>, file: usize, spec: &'a TypeSpec) -> Result<(), NoMemory>
    ensures { OnOk result (Adds found.old.items found.new.items (shown.type_items file
        (type_spec_view spec.now))) }
{
    if spec.alias {
        add(found, file, &spec.name, What::Alias(&spec.of))
    } else {
        add(found, file, &spec.name, What::Defined(&spec.of))
    }
}

fn add_type_group<'a>(
    found: &mut Vec<Item<'a>>,
    file: usize,
    list: &'a [TypeSpec],
) -> Result<(), NoMemory>
    ensures { OnOk result (Adds found.old.items found.new.items (flat_map (shown.type_items file)
        (map type_spec_view list.now))) }
{
    for spec in list {
        add_type(found, file, spec)?;
    }
    Ok(())
}

fn add_type_specs<'a>(
    found: &mut Vec<Item<'a>>,
    file: usize,
    specs: &'a Specs<TypeSpec>,
) -> Result<(), NoMemory>
    ensures { OnOk result (Adds found.old.items found.new.items (shown.specs_items
        (shown.type_items file) (specs_with type_spec_view specs.now))) }
{
    match specs {
        Specs::One(spec) => add_type(found, file, spec),
        Specs::Grouped(list) => add_type_group(found, file, list.as_slice()),
    }
}

fn add_decl<'a>(found: &mut Vec<Item<'a>>, file: usize, decl: &'a DeclTree) -> Result<(), NoMemory>
    ensures { OnOk result (Adds found.old.items found.new.items (shown.decl_items file (decl_view
        decl.now))) }
{
    match decl {
        DeclTree::Common(CommonTree::Const { specs, .. }) => add_const_specs(found, file, specs),
        DeclTree::Common(CommonTree::Var { specs, .. }) => add_var_specs(found, file, specs),
        DeclTree::Type { specs, .. } => add_type_specs(found, file, specs),
        DeclTree::Method { .. } => Ok(()),
        DeclTree::Func { name, sig, .. } => add(found, file, name, What::Func(sig)),
    }
}

fn add_decls<'a>(
    found: &mut Vec<Item<'a>>,
    file: usize,
    list: &'a [DeclTree],
) -> Result<(), NoMemory>
    ensures { OnOk result (Adds found.old.items found.new.items (flat_map (shown.decl_items file)
        (map decl_view list.now))) }
{
    for decl in list {
        add_decl(found, file, decl)?;
    }
    Ok(())
}

/// What each declaration of the files says of its name, in the order of the sources. The number of
/// a file is its place. Methods, and the parameters of types and functions, aren't shown yet.
#[tactic(auto, using(std::proofs::lemmas::Grind::common_steps, crate::proofs::ItemLemmas::adding), unfolding(crate::specs::Items::items_of))]
pub fn items_of<'a>(alloc: Global, files: &'a [FileTree]) -> Result<Vec<Item<'a>>, NoMemory>
    ensures { IfOk result (λ v. map item_view v.items ≡ shown.items_of (map file_view files.now)) }
{
    let mut found = Vec::new(alloc);
    for i in 0..files.len() {
        add_decls(&mut found, i, files[i].decls.as_slice())?;
    }
    Ok(found)
}
