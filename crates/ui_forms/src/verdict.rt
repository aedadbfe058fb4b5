// The verdict on a package of sums.
ghost use Rattle.std.specs.Prelude.{◌≡◌, Ok, IfOk, IfErr, OnOk};
ghost use Rattle.std.specs.FinMap.{insert, empty};
ghost use Rattle.ui_exports.specs.Adding.{with_decls};
ghost use Rattle.ui_forms.specs.Scope.{ArePlaces, selection_of};
ghost use Rattle.ui_forms.specs.Size.{IsSmallExport};
ghost use Rattle.ui_base.specs.Steps.{and_then};
ghost use Rattle.ui_forms.specs.Verdict as verdicts;
ghost use Rattle.ui_forms.specs.Verdict.{environment_of, value_from, verdict, constant_value};
ghost use Rattle.ui_forms.specs.Verdict.{declared_from, parts_from, IsRefusal};

use crate::form::Form;
use crate::numbers::Numbers;
use crate::part::{ConstantSum, Part};
use crate::scope::{Scope, places_of};
use crate::used::check_imports;
use crate::values;
use std::alloc::Global;
use ui_base::{CheckFault, NoMemory, Pos, Text};
use ui_exports::{Constant, Linked, Package};

// Declares a constant of a value.
fn add_constant(
    alloc: Global,
    file: &[u8],
    constant: &ConstantSum,
    value: u128,
    exported: &mut Package,
) -> Result<(), NoMemory>
    ensures { OnOk result (exported.new ≡ with_decls exported.old
        (insert exported.old.decls constant.now.name
        (verdicts.declared file.now constant.now value))) }
{
    let name = Vec::from_slice(alloc, constant.name.bytes())?;
    let pos = Pos {
        file: Text::from_slice(alloc, file)?,
        line: constant.spot.line,
        col: constant.spot.col,
    };
    exported.declare(name, Constant { pos, value })?;
    Ok(())
}

// Declares a constant.
fn declare(
    alloc: Global,
    file: &[u8],
    constant: &ConstantSum,
    exported: &mut Package,
    scope: &Scope,
) -> Result<(), CheckFault>
    ensures accepted { OnOk result (and_then (λ value. Ok
        (insert exported.old.decls constant.now.name
        (verdicts.declared file.now constant.now value)))
        (constant_value (selection_of scope.now) file.now exported.old.decls constant.now)
        ≡ Ok exported.new.decls) }
    ensures stays { OnOk result (exported.new ≡ with_decls exported.old exported.new.decls) }
    ensures refused { IfErr result (λ e. IsRefusal
        (constant_value (selection_of scope.now) file.now exported.old.decls constant.now) e) }
{
    match values::constant_value(alloc, file, constant, exported, scope) {
        Ok(value) => {
            add_constant(alloc, file, constant, value, exported)?;
            Ok(())
        }
        Err(e) => Err(e),
    }
}

// Declares the constants of a source in their order.
fn declare_all(
    alloc: Global,
    file: &[u8],
    constants: &[ConstantSum],
    exported: &mut Package,
    scope: &Scope,
) -> Result<(), CheckFault>
    ensures accepted { OnOk result (declared_from
        (selection_of scope.now) file.now exported.old.decls constants.now
        ≡ Ok exported.new.decls) }
    ensures stays { OnOk result (exported.new ≡ with_decls exported.old exported.new.decls) }
    ensures refused { IfErr result (λ e. IsRefusal
        (declared_from (selection_of scope.now) file.now exported.old.decls constants.now) e) }
{
    for constant in constants {
        match declare(alloc, file, constant, exported, scope) {
            Ok(()) => {}
            Err(e) => return Err(e),
        }
    }
    Ok(())
}

// Declares the constants of a source, by the linked files of the package's imports and their
// places.
fn declare_part(
    alloc: Global,
    part: &Part,
    exported: &mut Package,
    imports: &[Linked],
    places: &Numbers,
) -> Result<(), CheckFault>
    requires { ArePlaces places.now imports.now }
    ensures accepted { OnOk result (declared_from
        (value_from (environment_of imports.now) part.now.imports) part.now.file exported.old.decls
        part.now.constants ≡ Ok exported.new.decls) }
    ensures stays { OnOk result (exported.new ≡ with_decls exported.old exported.new.decls) }
    ensures refused { IfErr result (λ e. IsRefusal
        (declared_from (value_from (environment_of imports.now) part.now.imports) part.now.file
        exported.old.decls part.now.constants) e) }
{
    let scope = Scope::new(alloc, imports, places, part.imports.as_slice())?;
    declare_all(
        alloc,
        part.file.bytes(),
        part.constants.as_slice(),
        exported,
        &scope,
    )
}

// Declares the constants of the sources in their order.
fn declare_parts(
    alloc: Global,
    parts: &[Part],
    exported: &mut Package,
    imports: &[Linked],
    places: &Numbers,
) -> Result<(), CheckFault>
    requires { ArePlaces places.now imports.now }
    ensures accepted { OnOk result (parts_from (environment_of imports.now) exported.old.decls
        parts.now ≡ Ok exported.new.decls) }
    ensures stays { OnOk result (exported.new ≡ with_decls exported.old exported.new.decls) }
    ensures refused { IfErr result (λ e. IsRefusal
        (parts_from (environment_of imports.now) exported.old.decls parts.now) e) }
{
    for part in parts {
        match declare_part(alloc, part, exported, imports, places) {
            Ok(()) => {}
            Err(e) => return Err(e),
        }
    }
    Ok(())
}

// The package of a form's constants.
fn declared(
    alloc: Global,
    path: &[u8],
    name: &[u8],
    parts: &[Part],
    imports: &[Linked],
) -> Result<Package, CheckFault>
    ensures accepted { IfOk result (λ p. parts_from (environment_of imports.now) empty parts.now
        ≡ Ok p.decls) }
    ensures named { IfOk result (λ p. p ≡ record {
      path = path.now;
      name = name.now;
      decls = p.decls;
    }) }
    ensures refused { IfErr result (λ e. IsRefusal
        (parts_from (environment_of imports.now) empty parts.now) e) }
{
    let places = places_of(alloc, imports)?;
    let mut package = Package::new(alloc, path, name)?;
    match declare_parts(alloc, parts, &mut package, imports, &places) {
        Ok(()) => Ok(package),
        Err(e) => Err(e),
    }
}

/// What a package exports over its imports, or its first fault: a name that an import doesn't have,
/// or a sum past 2^127 - 1, whichever stands first; else the first import of a source that it
/// doesn't use. `imports` are what the linked files of the form's imports stand for.
pub fn check(alloc: Global, form: &Form, imports: &[Linked]) -> Result<Package, CheckFault>
    ensures accepted { IfOk result (λ p. verdict (environment_of imports.now) form.now ≡ Ok p) }
    ensures refused { IfErr result (λ fault. IsRefusal
        (verdict (environment_of imports.now) form.now) fault) }
    ensures own { IfOk result (λ p. p.path ≡ form.now.path) }
    ensures small { IfOk result IsSmallExport }
{
    match declared(
        alloc,
        form.path.bytes(),
        form.name.bytes(),
        form.parts.as_slice(),
        imports,
    ) {
        Ok(package) => match check_imports(alloc, form.parts.as_slice()) {
            Ok(()) => Ok(package),
            Err(fault) => Err(fault),
        },
        Err(first) => Err(first),
    }
}
