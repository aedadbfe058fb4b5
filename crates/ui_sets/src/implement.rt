//! Whether a type implements an interface.
ghost use Rattle.std.specs.Prelude.{◌≡◌, All, IfOk, IfSome, Some, map, option_map};
ghost use Rattle.ui_types.specs.Ty.{Ty};
ghost use Rattle.ui_types.specs.Table.{IsId, AreIds, Grows, parts_by, tree, trees};
ghost use Rattle.ui_types.specs.Kept.{Kept};
ghost use Rattle.ui_sets.specs.Needed.{Answers, Refuses};
ghost use Rattle.ui_sets.specs.Methods as want;
ghost use Rattle.ui_sets.specs.Methods.{has_method, has_methods, some_fit, methods_fit, listed_fit};
ghost use Rattle.ui_sets.specs.Methods.{method_names, method_sigs};
ghost use Rattle.ui_sets.specs.Reading.{IsFound, IsSite, shown_found, shown_site};
ghost use Rattle.ui_sets.specs.declared.fault.SetFault.TheVariants.{Unfit as Unfits};
ghost use Rattle.ui_sets.specs.declared.fault.Unfit.TheVariants.{NoMethod};

use crate::fault::{SetFault, Unfit};
use crate::members::found_at;
use crate::needs::needed;
use crate::site::{Found, Site, site_of};
use std::alloc::Global;
use ui_types::{
    Env, Ids, Method, Methods, Name, NoMemory, TypeId, TypeNode, TypeTable, copy_parts,
    is_identical,
};

// The fault of a type that lacks a method.
fn no_method(alloc: Global, name: &Name) -> SetFault
    ensures { Refuses (Some (Unfits (NoMethod name.now))) result }
{
    match name.copy(alloc) {
        Ok(name) => SetFault::Unfit(Unfit::NoMethod { name }),
        Err(_) => SetFault::NoMemory,
    }
}

// Whether it is a method of the method set with this signature.
fn has_method(table: &TypeTable, found: &Option<Found>, sig: TypeId) -> bool
    requires found { IfSome found.now (IsFound table.now) }
    requires sig { IsId table.now sig }
    ensures { result ≡ has_method (option_map (shown_found table.now) found.now)
        (tree table.now sig) }
{
    if let Some(Found::Method { face, through }) = found {
        return (!face.pointer || *through) && is_identical(table, face.sig, sig);
    }
    false
}

// Finds one method.
fn find_one(
    alloc: Global,
    table: &mut TypeTable,
    site: &Site,
    method: &Method,
) -> Result<bool, SetFault>
    requires site { IsSite table.old site.now }
    requires sig { IsId table.old method.now.sig }
    ensures answer { Answers (want.finds (shown_site table.old site.now) method.now.name
        (tree table.old method.now.sig)) result }
    ensures grows { Grows table.old table.new }
{
    let found = found_at(alloc, table, site, &method.name)?;
    Ok(has_method(table, &found, method.sig))
}

/// The methods, up to the first that the site lacks.
#[tactic(auto, using(ui_types::specs::Trees::growth, crate::specs::Needed::stepping, crate::specs::Reading::sites_grow))]
fn has_methods(
    alloc: Global,
    table: &mut TypeTable,
    site: &Site,
    methods: &[Method],
) -> Result<(), SetFault>
    requires site { IsSite table.old site.now }
    requires sigs { All (λ m. IsId table.old m.sig) methods.now }
    ensures answer { Answers (has_methods (shown_site table.old site.now)
        (map (λ m. m.name) methods.now) (parts_by (λ m. m.sig) table.old methods.now)) result }
    ensures grows { Grows table.old table.new }
{
    for method in methods {
        if !find_one(alloc, table, site, method)? {
            return Err(no_method(alloc, &method.name));
        }
    }
    Ok(())
}

/// The methods of an interface.
pub(crate) fn methods_of(alloc: Global, table: &TypeTable, t: TypeId) -> Result<Methods, NoMemory>
    requires { IsId table.now t }
    ensures valid { IfOk result (All (λ m. IsId table.now m.sig)) }
    ensures names { IfOk result (λ ms. map (λ m. m.name) ms ≡ method_names (tree table.now t)) }
    ensures sigs { IfOk result (λ ms. parts_by (λ m. m.sig) table.now ms
        ≡ method_sigs (tree table.now t)) }
{
    match table.node(t) {
        TypeNode::Iface {
            methods,
            comparable: _,
            unions: _,
        } => copy_parts(alloc, methods.items()),
        _ => Ok(Methods::new(Vec::new(alloc))),
    }
}

// Whether the type has these methods, of which there is one.
fn some_fit<E: Env>(
    alloc: Global,
    env: &mut E,
    table: &mut TypeTable,
    bounds: &[TypeId],
    t: TypeId,
    methods: &[Method],
) -> Result<(), SetFault>
    requires env { E.fits env.old table.old }
    requires bounds { AreIds table.old bounds.now }
    requires id { IsId table.old t }
    requires sigs { All (λ m. IsId table.old m.sig) methods.now }
    ensures answer { Answers (some_fit (E.decls env.old table.old) (trees table.old bounds.now)
        (tree table.old t) (map (λ m. m.name) methods.now)
        (parts_by (λ m. m.sig) table.old methods.now)) result }
    ensures kept { Kept E.packages E.lent E.decls E.fits env.old table.old env.new table.new }
{
    let site = site_of(alloc, env, table, bounds, t)?;
    has_methods(alloc, table, &site, methods)
}

/// Whether the type has these methods.
pub(crate) fn methods_fit<E: Env>(
    alloc: Global,
    env: &mut E,
    table: &mut TypeTable,
    bounds: &[TypeId],
    t: TypeId,
    methods: &[Method],
) -> Result<(), SetFault>
    requires env { E.fits env.old table.old }
    requires bounds { AreIds table.old bounds.now }
    requires id { IsId table.old t }
    requires sigs { All (λ m. IsId table.old m.sig) methods.now }
    ensures answer { Answers (methods_fit (E.decls env.old table.old) (trees table.old bounds.now)
        (tree table.old t) (map (λ m. m.name) methods.now)
        (parts_by (λ m. m.sig) table.old methods.now)) result }
    ensures kept { Kept E.packages E.lent E.decls E.fits env.old table.old env.new table.new }
{
    if methods.is_empty() {
        return Ok(());
    }
    some_fit(alloc, env, table, bounds, t, methods)
}

/// Whether the type has the methods of an interface, which is given by its underlying type. What is
/// no interface has none. Go specification, "Implementing an interface".
pub fn listed_fit<E: Env>(
    alloc: Global,
    env: &mut E,
    table: &mut TypeTable,
    bounds: &[TypeId],
    t: TypeId,
    interface: TypeId,
) -> Result<(), SetFault>
    requires env { E.fits env.old table.old }
    requires bounds { AreIds table.old bounds.now }
    requires id { IsId table.old t }
    requires interface { IsId table.old interface }
    ensures answer { Answers (listed_fit (E.decls env.old table.old) (trees table.old bounds.now)
        (tree table.old t) (tree table.old interface)) result }
    ensures kept { Kept E.packages E.lent E.decls E.fits env.old table.old env.new table.new }
{
    let methods = methods_of(alloc, table, interface)?;
    methods_fit(alloc, env, table, bounds, t, methods.items())
}

/// Whether the type implements the interface: its method set has each method with the same
/// signature. Whether it is comparable, and in which unions, isn't asked here. The first method
/// that it lacks is told, unless a type needed before is past a limit. Go specification,
/// "Implementing an interface".
pub fn implements<E: Env>(
    alloc: Global,
    env: &mut E,
    table: &mut TypeTable,
    bounds: &Ids,
    t: TypeId,
    interface: TypeId,
) -> Result<(), SetFault>
    requires env { E.fits env.old table.old }
    requires bounds { AreIds table.old bounds.now }
    requires id { IsId table.old t }
    requires interface { IsId table.old interface }
    ensures answer { Answers (want.implements (E.decls env.old table.old)
        (trees table.old bounds.now) (tree table.old t) (tree table.old interface)) result }
    ensures kept { Kept E.packages E.lent E.decls E.fits env.old table.old env.new table.new }
{
    let under = needed(alloc, env, table, interface)?;
    listed_fit(alloc, env, table, bounds.items(), t, under)
}
