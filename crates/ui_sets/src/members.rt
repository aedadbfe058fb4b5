//! Looking a name up.
ghost use Rattle.std.specs.Prelude.{◌≡◌, ◌≤◌, [], All, IfOk, IfSome, false, length, map};
ghost use Rattle.std.specs.Prelude.{option_map};
ghost use Rattle.ui_types.specs.Table.{IsId, AreIds, Grows, max_size, parts_by, tree, trees};
ghost use Rattle.ui_types.specs.Decls.{shown_methods};
ghost use Rattle.ui_types.specs.Kept.{Kept};
ghost use Rattle.ui_sets.specs.Needed.{Gives};
ghost use Rattle.ui_sets.specs.Sites as want;
ghost use Rattle.ui_sets.specs.Sites.{in_shape, in_shapes, listed, method, find_field, find_listed};
ghost use Rattle.ui_sets.specs.Sites.{find_method};
ghost use Rattle.ui_sets.specs.Reading.{IsFound, IsSite, shown_found, shown_method, shown_site};

use crate::fault::SetFault;
use crate::needs::instance;
use crate::site::{Found, Site, site_of};
use std::alloc::Global;
use ui_types::{
    Env, Field, Ids, Method, MethodFace, Name, NoMemory, Part, Pos, Text, TypeId, TypeNode,
    TypeTable,
};

// The field of this name.
fn find_field(table: &TypeTable, fields: &[Field], name: &Name, through: bool) -> Option<Found>
    requires valid { All (λ f. IsId table.now f.ty) fields.now }
    requires count { length fields.now ≤ max_size }
    ensures valid { IfSome result (IsFound table.now) }
    ensures answer { option_map (shown_found table.now) result
        ≡ find_field 0 (map (λ f. f.name) fields.now) (parts_by (λ f. f.ty) table.now fields.now)
        name.now through }
{
    let _ = table;
    for (k, field) in fields.iter().enumerate() {
        if field.name == *name {
            return Some(Found::Field {
                index: k as u32,
                ty: field.ty,
                through,
            });
        }
    }
    None
}

// The signature of an interface's method of this name.
fn find_listed(table: &TypeTable, methods: &[Method], name: &Name) -> Option<TypeId>
    requires valid { All (λ m. IsId table.now m.sig) methods.now }
    ensures valid { IfSome result (IsId table.now) }
    ensures answer { option_map (tree table.now) result ≡ find_listed
        (map (λ m. m.name) methods.now) (parts_by (λ m. m.sig) table.now methods.now) name.now }
{
    let _ = table;
    for method in methods {
        if method.name == *name {
            return Some(method.sig);
        }
    }
    None
}

// A method of an interface, which stands nowhere.
fn listed(alloc: Global, name: &Name, sig: TypeId) -> Result<MethodFace, NoMemory>
    ensures { IfOk result (λ m. m ≡ record {
      name = name.now;
      pos = record
          { file = []; line = 0; col = 0 };
      pointer = false;
      sig = sig;
    }) }
{
    let name = name.copy(alloc)?;
    let pos = Pos {
        file: Text::new(Vec::new(alloc)),
        line: 0,
        col: 0,
    };
    Ok(MethodFace {
        name,
        pos,
        pointer: false,
        sig,
    })
}

// The method of an interface with this name.
fn listed_method(
    alloc: Global,
    table: &TypeTable,
    methods: &[Method],
    name: &Name,
) -> Result<Option<Found>, NoMemory>
    requires valid { All (λ m. IsId table.now m.sig) methods.now }
    ensures valid { IfOk result (λ found. IfSome found (IsFound table.now)) }
    ensures answer { IfOk result (λ found. option_map (shown_found table.now) found
        ≡ option_map (λ sig. method (listed name.now sig) false)
        (find_listed (map (λ m. m.name) methods.now) (parts_by (λ m. m.sig) table.now methods.now)
        name.now)) }
{
    match find_listed(table, methods, name) {
        Some(sig) => {
            let face = listed(alloc, name, sig)?;
            Ok(Some(Found::Method {
                face,
                through: false,
            }))
        }
        None => Ok(None),
    }
}

// The member of a struct or an interface with this name.
#[tactic(auto, using(crate::proofs::Fields::few_fields))]
fn in_shape(
    alloc: Global,
    table: &TypeTable,
    shape: TypeId,
    name: &Name,
    through: bool,
) -> Result<Option<Found>, NoMemory>
    requires { IsId table.now shape }
    ensures valid { IfOk result (λ found. IfSome found (IsFound table.now)) }
    ensures answer { IfOk result (λ found. option_map (shown_found table.now) found
        ≡ in_shape (tree table.now shape) name.now through) }
{
    match table.node(shape) {
        TypeNode::Struct(fields) => Ok(find_field(table, fields.items(), name, through)),
        TypeNode::Iface {
            methods,
            comparable: _,
            unions: _,
        } => listed_method(alloc, table, methods.items(), name),
        _ => Ok(None),
    }
}

// The same where there may be neither.
fn in_shapes(
    alloc: Global,
    table: &TypeTable,
    shape: Option<TypeId>,
    name: &Name,
    through: bool,
) -> Result<Option<Found>, NoMemory>
    requires { IfSome shape (IsId table.now) }
    ensures valid { IfOk result (λ found. IfSome found (IsFound table.now)) }
    ensures answer { IfOk result (λ found. option_map (shown_found table.now) found
        ≡ in_shapes (option_map (tree table.now) shape) name.now through) }
{
    match shape {
        Some(shape) => in_shape(alloc, table, shape, name, through),
        None => Ok(None),
    }
}

// The method of this name, of those of a defined type.
fn find_method<'a>(
    table: &TypeTable,
    methods: &'a [MethodFace],
    name: &Name,
) -> Option<&'a MethodFace>
    requires valid { All (λ m. IsId table.now m.sig) methods.now }
    ensures valid { IfSome result (λ m. IsId table.now m.now.sig) }
    ensures answer { option_map (λ m. shown_method table.now m.now) result
        ≡ find_method (shown_methods table.now methods.now) name.now }
{
    let _ = table;
    for method in methods {
        if method.name == *name {
            return Some(method);
        }
    }
    None
}

// The method of this name with the type arguments put in.
fn method_with(
    alloc: Global,
    table: &mut TypeTable,
    site: &Site,
    name: &Name,
) -> Result<Option<Found>, SetFault>
    requires { IsSite table.old site.now }
    ensures answer { Gives (λ found. IfSome found (IsFound table.new))
        (option_map (shown_found table.new))
        (want.method_with (trees table.old site.now.args) site.now.through
        (find_method (shown_methods table.old site.now.methods) name.now)) result }
    ensures grows { Grows table.old table.new }
{
    match find_method(table, site.methods.items(), name) {
        Some(method) => {
            let sig = instance(alloc, table, method.sig, site.args.items())?;
            let face = method.retyped(alloc, sig)?;
            Ok(Some(Found::Method {
                face,
                through: site.through,
            }))
        }
        None => Ok(None),
    }
}

/// The member of this name at a site.
pub(crate) fn found_at(
    alloc: Global,
    table: &mut TypeTable,
    site: &Site,
    name: &Name,
) -> Result<Option<Found>, SetFault>
    requires { IsSite table.old site.now }
    ensures answer { Gives (λ found. IfSome found (IsFound table.new))
        (option_map (shown_found table.new)) (want.found_at (shown_site table.old site.now)
        name.now) result }
    ensures grows { Grows table.old table.new }
{
    let found = in_shapes(alloc, table, site.shape, name, site.through)?;
    if found.is_some() {
        return Ok(found);
    }
    method_with(alloc, table, site, name)
}

/// The field or the method of a type with this name, with a pointer followed where the type is one:
/// a field before a method. A method with a pointer receiver is found for the type itself too.
/// `bounds` are the constraints of the type parameters in scope, by number; one that has none there
/// has the empty interface. It is refused exactly where the underlying type of the type or of what
/// it points to, or the signature found, is past a limit. Go specification, "Selectors".
pub fn lookup<E: Env>(
    alloc: Global,
    env: &mut E,
    table: &mut TypeTable,
    bounds: &Ids,
    t: TypeId,
    name: &Name,
) -> Result<Option<Found>, SetFault>
    requires env { E.fits env.old table.old }
    requires bounds { AreIds table.old bounds.now }
    requires id { IsId table.old t }
    ensures answer { Gives (λ found. IfSome found (IsFound table.new))
        (option_map (shown_found table.new)) (want.lookup (E.decls env.old table.old)
        (trees table.old bounds.now) (tree table.old t) name.now) result }
    ensures kept { Kept E.packages E.lent E.decls E.fits env.old table.old env.new table.new }
{
    let site = site_of(alloc, env, table, bounds.items(), t)?;
    found_at(alloc, table, &site, name)
}
