//! Where the fields and methods of a type are.
ghost use Rattle.std.specs.Prelude.{◌≡◌, List, [], All, IfOk, IfSome, Some, None, option_map, true};
ghost use Rattle.std.specs.Prelude.{if◌then◌else◌};
ghost use Rattle.ui_types.specs.Ty.{param};
ghost use Rattle.ui_types.specs.Table.{Table, IsId, AreIds, tree, trees};
ghost use Rattle.ui_types.specs.Decls.{MethodTree, IsDecl, shown_decl, shown_methods, error_name};
ghost use Rattle.ui_types.specs.Decls.{name_eq};
ghost use Rattle.ui_types.specs.Kept.{Kept};
ghost use Rattle.ui_sets.specs.Needed.{Gives};
ghost use Rattle.ui_sets.specs.Sites as want;
ghost use Rattle.ui_sets.specs.Sites.{args_of, counted, elem_of, fields_of, is_pointer, listed_of};
ghost use Rattle.ui_sets.specs.Sites.{number_of, decl_methods, name_methods, own_methods};
ghost use Rattle.ui_sets.specs.Reading.{IsSite, shown_site};

use crate::fault::SetFault;
use crate::needs::{needed, needed_bound};
use std::alloc::Global;
use ui_types::{
    Decl, Env, Face, Ids, MethodFace, MethodFaces, Name, NoMemory, TypeId, TypeNode, TypeTable,
    copy_parts,
};

/// What a name is of a type.
#[derive(Drop)]
pub enum Found {
    /// A field by its place, and whether a pointer is followed.
    Field {
        index: u32,
        ty: TypeId,
        through: bool,
    },
    /// A method, with the type arguments put in, and whether a pointer is followed. That of an
    /// interface or a type parameter has no pointer receiver, and stands in the empty file at line
    /// 0 and column 0.
    Method {
        face: MethodFace,
        through: bool,
    },
}

/// Where a name is looked up: the struct or the interface, the methods of the defined type with its
/// type arguments, and whether a pointer is followed.
#[derive(Drop)]
pub(crate) struct Site {
    pub shape: Option<TypeId>,
    pub methods: MethodFaces,
    pub args: Ids,
    pub through: bool,
}

fn no_methods(alloc: Global) -> MethodFaces
    ensures { result ≡ [] }
{
    MethodFaces::new(Vec::new(alloc))
}

// Whether it is the name of the predeclared type `error`.
fn is_error(name: &Name) -> bool
    ensures { result ≡ name_eq name.now error_name }
{
    name.path.bytes() == b"builtin".as_slice() && name.name.bytes() == b"error".as_slice()
}

// The methods of a declaration as a defined type with so many type parameters.
fn declared_methods(
    alloc: Global,
    decl: &Option<Decl>,
    count: usize,
) -> Result<MethodFaces, NoMemory>
    ensures methods { (table : Table) → IfSome decl.now (IsDecl table)
        → IfOk result (λ ms. shown_methods table ms ≡ decl_methods
        (option_map (shown_decl table) decl.now) count) }
    ensures valid { (table : Table) → IfSome decl.now (IsDecl table)
        → IfOk result (All (λ m. IsId table m.sig)) }
{
    if let Some(decl) = decl {
        if let Face::Defined {
            params,
            under: _,
            methods,
        } = &decl.face
        {
            if params.items().len() == count {
                return copy_parts(alloc, methods.items());
            }
        }
    }
    Ok(no_methods(alloc))
}

// The methods that are declared for a name with so many type arguments.
#[tactic(auto, using(ui_types::specs::Trees::growth, ui_types::specs::Kept::keeping))]
fn name_methods<E: Env>(
    alloc: Global,
    env: &mut E,
    table: &mut TypeTable,
    name: &Name,
    count: usize,
) -> Result<MethodFaces, NoMemory>
    requires env { E.fits env.old table.old }
    ensures answer { IfOk result (λ ms. shown_methods table.new ms
        ≡ name_methods (E.decls env.old table.old) name.now count) }
    ensures valid { IfOk result (All (λ m. IsId table.new m.sig)) }
    ensures kept { Kept E.packages E.lent E.decls E.fits env.old table.old env.new table.new }
{
    if is_error(name) {
        return Ok(no_methods(alloc));
    }
    match env.decl(alloc, table, name) {
        Ok(decl) => declared_methods(alloc, &decl, count),
        Err(fault) => Err(fault),
    }
}

// The type arguments of a type, where it is a declared one.
fn arguments(alloc: Global, table: &TypeTable, t: TypeId) -> Result<Ids, NoMemory>
    requires { IsId table.now t }
    ensures valid { IfOk result (AreIds table.now) }
    ensures answer { IfOk result (λ ids. trees table.now ids ≡ args_of (tree table.now t)) }
{
    match table.node(t) {
        TypeNode::Named { name: _, args } => copy_parts(alloc, args.items()),
        _ => Ok(Ids::new(Vec::new(alloc))),
    }
}

// The methods that are declared for a type.
fn own_methods<E: Env>(
    alloc: Global,
    env: &mut E,
    table: &mut TypeTable,
    t: TypeId,
) -> Result<MethodFaces, NoMemory>
    requires env { E.fits env.old table.old }
    requires id { IsId table.old t }
    ensures answer { IfOk result (λ ms. shown_methods table.new ms
        ≡ own_methods (E.decls env.old table.old) (tree table.old t)) }
    ensures valid { IfOk result (All (λ m. IsId table.new m.sig)) }
    ensures kept { Kept E.packages E.lent E.decls E.fits env.old table.old env.new table.new }
{
    if let TypeNode::Named { name, args } = table.node(t) {
        let count = args.items().len();
        let name = name.copy(alloc)?;
        return name_methods(alloc, env, table, &name, count);
    }
    Ok(no_methods(alloc))
}

// Whether the methods of a defined type with this underlying type count.
fn are_counted(table: &TypeTable, under: TypeId) -> bool
    requires { IsId table.now under }
    ensures { (ms : List MethodTree) → counted (tree table.now under) ms
        ≡ (if result then ms else []) }
{
    !matches!(
        table.node(under),
        TypeNode::Pointer(_) | TypeNode::Iface { .. }
    )
}

// The type, where it is a struct.
fn as_struct(table: &TypeTable, under: TypeId) -> Option<TypeId>
    requires { IsId table.now under }
    ensures valid { IfSome result (IsId table.now) }
    ensures answer { option_map (tree table.now) result ≡ fields_of (tree table.now under) }
{
    match table.node(under) {
        TypeNode::Struct(_) => Some(under),
        _ => None,
    }
}

// The type, where it is an interface.
fn as_interface(table: &TypeTable, under: TypeId) -> Option<TypeId>
    requires { IsId table.now under }
    ensures valid { IfSome result (IsId table.now) }
    ensures answer { option_map (tree table.now) result ≡ listed_of (tree table.now under) }
{
    match table.node(under) {
        TypeNode::Iface { .. } => Some(under),
        _ => None,
    }
}

// The type that it points to, where it is a pointer.
fn elem_of(table: &TypeTable, t: TypeId) -> Option<TypeId>
    requires { IsId table.now t }
    ensures valid { IfSome result (IsId table.now) }
    ensures answer { option_map (tree table.now) result ≡ elem_of (tree table.now t) }
{
    match table.node(t) {
        TypeNode::Pointer(elem) => Some(*elem),
        _ => None,
    }
}

// Whether it is a pointer.
fn is_pointer(table: &TypeTable, t: TypeId) -> bool
    requires { IsId table.now t }
    ensures { result ≡ is_pointer (tree table.now t) }
{
    matches!(table.node(t), TypeNode::Pointer(_))
}

/// Its number, where it is a type parameter.
pub fn number_of(table: &TypeTable, t: TypeId) -> Option<u32>
    requires { IsId table.now t }
    ensures { result ≡ number_of (tree table.now t) }
{
    match table.node(t) {
        TypeNode::Param(k) => Some(*k),
        _ => None,
    }
}

// The methods of a type with this underlying type, where they are asked for.
fn counted_methods<E: Env>(
    alloc: Global,
    env: &mut E,
    table: &mut TypeTable,
    are_asked: bool,
    t: TypeId,
    under: TypeId,
) -> Result<MethodFaces, NoMemory>
    requires env { E.fits env.old table.old }
    requires id { IsId table.old t }
    requires under { IsId table.old under }
    ensures answer { IfOk result (λ ms. shown_methods table.new ms
        ≡ (if are_asked then counted (tree table.old under)
        (own_methods (E.decls env.old table.old) (tree table.old t)) else [])) }
    ensures valid { IfOk result (All (λ m. IsId table.new m.sig)) }
    ensures kept { Kept E.packages E.lent E.decls E.fits env.old table.old env.new table.new }
{
    if !are_asked || !are_counted(table, under) {
        return Ok(no_methods(alloc));
    }
    own_methods(alloc, env, table, t)
}

// The site of a type that a pointer points to.
fn pointed_site<E: Env>(
    alloc: Global,
    env: &mut E,
    table: &mut TypeTable,
    is_itself: bool,
    t: TypeId,
) -> Result<Site, SetFault>
    requires env { E.fits env.old table.old }
    requires id { IsId table.old t }
    ensures answer { Gives (IsSite table.new) (shown_site table.new)
        (want.pointed_site (E.decls env.old table.old) is_itself (tree table.old t)) result }
    ensures kept { Kept E.packages E.lent E.decls E.fits env.old table.old env.new table.new }
{
    let under = needed(alloc, env, table, t)?;
    let methods = counted_methods(alloc, env, table, is_itself, t, under)?;
    let args = arguments(alloc, table, t)?;
    Ok(Site {
        shape: as_struct(table, under),
        methods,
        args,
        through: true,
    })
}

// The site of a type that is no pointer.
fn value_site<E: Env>(
    alloc: Global,
    env: &mut E,
    table: &mut TypeTable,
    t: TypeId,
    under: TypeId,
) -> Result<Site, SetFault>
    requires env { E.fits env.old table.old }
    requires id { IsId table.old t }
    requires under { IsId table.old under }
    ensures answer { Gives (IsSite table.new) (shown_site table.new)
        (want.under_site (E.decls env.old table.old) (tree table.old t) (tree table.old under) None)
        result }
    ensures kept { Kept E.packages E.lent E.decls E.fits env.old table.old env.new table.new }
{
    let methods = counted_methods(alloc, env, table, true, t, under)?;
    let args = arguments(alloc, table, t)?;
    Ok(Site {
        shape: Some(under),
        methods,
        args,
        through: false,
    })
}

// The site of a type that is no type parameter.
fn plain_site<E: Env>(
    alloc: Global,
    env: &mut E,
    table: &mut TypeTable,
    t: TypeId,
) -> Result<Site, SetFault>
    requires env { E.fits env.old table.old }
    requires id { IsId table.old t }
    ensures answer { Gives (IsSite table.new) (shown_site table.new)
        (want.numbered_site (E.decls env.old table.old) [] (tree table.old t) None) result }
    ensures kept { Kept E.packages E.lent E.decls E.fits env.old table.old env.new table.new }
{
    let under = needed(alloc, env, table, t)?;
    match elem_of(table, under) {
        Some(elem) => {
            let is_itself = is_pointer(table, t);
            pointed_site(alloc, env, table, is_itself, elem)
        }
        None => value_site(alloc, env, table, t, under),
    }
}

// The site of a type parameter.
fn param_site<E: Env>(
    alloc: Global,
    env: &mut E,
    table: &mut TypeTable,
    bounds: &[TypeId],
    k: u32,
) -> Result<Site, SetFault>
    requires env { E.fits env.old table.old }
    requires bounds { AreIds table.old bounds.now }
    ensures answer { Gives (IsSite table.new) (shown_site table.new)
        (want.numbered_site (E.decls env.old table.old) (trees table.old bounds.now) (param k)
        (Some k)) result }
    ensures kept { Kept E.packages E.lent E.decls E.fits env.old table.old env.new table.new }
{
    let under = needed_bound(alloc, env, table, bounds, k)?;
    Ok(Site {
        shape: as_interface(table, under),
        methods: no_methods(alloc),
        args: Ids::new(Vec::new(alloc)),
        through: false,
    })
}

/// Where the members of a type are.
pub(crate) fn site_of<E: Env>(
    alloc: Global,
    env: &mut E,
    table: &mut TypeTable,
    bounds: &[TypeId],
    t: TypeId,
) -> Result<Site, SetFault>
    requires env { E.fits env.old table.old }
    requires bounds { AreIds table.old bounds.now }
    requires id { IsId table.old t }
    ensures answer { Gives (IsSite table.new) (shown_site table.new)
        (want.site (E.decls env.old table.old) (trees table.old bounds.now) (tree table.old t))
        result }
    ensures kept { Kept E.packages E.lent E.decls E.fits env.old table.old env.new table.new }
{
    match number_of(table, t) {
        Some(k) => param_site(alloc, env, table, bounds, k),
        None => plain_site(alloc, env, table, t),
    }
}
