//! Looking names up, and implementing interfaces.
ghost use Rattle.std.specs.Prelude.{◌≡◌};

use crate::samples::{Sample, bounds, make_sample, maybe_pointer, world};
use crate::spelling::name;
use std::alloc::Global;
use std::test::Fail;
use ui_sets::{Found, SetFault, Unfit, implements, lookup};
use ui_types::{ListEnv, TypeTable};

// What was found, in short: the field's place or the method, with `->` where a pointer is followed.
fn shown(found: &Option<Found>) -> &'static str {
    match found {
        None => "none",
        Some(
            Found::Field {
                index,
                ty: _,
                through,
            },
        ) => match (*index, *through) {
            (0, false) => ".0",
            (0, true) => "->0",
            (1, false) => ".1",
            (1, true) => "->1",
            _ => "another",
        },
        Some(Found::Method { face, through }) => match (face.pointer, *through) {
            (false, false) => ".method",
            (false, true) => "->method",
            (true, false) => ".pointer method",
            (true, true) => "->pointer method",
        },
    }
}

fn looked_up(
    alloc: Global,
    kind: Sample,
    is_pointer: bool,
    path: &str,
    text: &str,
) -> Result<&'static str, Fail> {
    let mut table = TypeTable::new(alloc);
    let decls = world(alloc, &mut table)?;
    let mut env = ListEnv::new(Vec::new(alloc), decls);
    let bound = make_sample(alloc, &mut table, Sample::I)?;
    let bounds = bounds(alloc, bound)?;
    let t = maybe_pointer(alloc, &mut table, kind, is_pointer)?;
    let name = name(alloc, path, text)?;
    let found = lookup(alloc, &mut env, &mut table, &bounds, t, &name)?;
    Ok(shown(&found))
}

// Fields before methods, through one pointer; methods of a defined type, of an interface and of a
// type parameter; none of a pointer to an interface or to a type parameter, nor of a defined
// pointer type; own names of a package alone.
#[test]
fn members(rt: HostRuntime) -> Result<(), Fail> {
    for (kind, is_pointer, path, text, want) in [
        (Sample::Struct, false, "", "X", ".0"),
        (Sample::Struct, true, "", "X", "->0"),
        (Sample::Struct, false, "p", "y", ".1"),
        (Sample::Struct, false, "q", "y", "none"),
        (Sample::Struct, false, "", "y", "none"),
        (Sample::Struct, false, "", "V", "none"),
        (Sample::T, false, "", "X", ".0"),
        (Sample::T, true, "p", "y", "->1"),
        (Sample::T, false, "", "V", ".method"),
        (Sample::T, false, "", "P", ".pointer method"),
        (Sample::T, true, "", "V", "->method"),
        (Sample::T, true, "", "P", "->pointer method"),
        (Sample::T, false, "", "Z", "none"),
        (Sample::Q, false, "", "X", "->0"),
        (Sample::Q, false, "", "V", "none"),
        (Sample::Q, true, "", "X", "none"),
        (Sample::Q, true, "", "V", "none"),
        (Sample::Lists, false, "", "V", ".method"),
        (Sample::Lists, false, "", "P", "none"),
        (Sample::I, false, "", "V", ".method"),
        (Sample::I, true, "", "V", "none"),
        (Sample::Bound, false, "", "V", ".method"),
        (Sample::Bound, false, "", "X", "none"),
        (Sample::Bound, true, "", "V", "none"),
        (Sample::Free, false, "", "V", "none"),
        (Sample::Free, true, "", "V", "none"),
        (Sample::Error, false, "", "Error", ".method"),
        (Sample::Error, true, "", "Error", "none"),
        (Sample::Int, false, "", "X", "none"),
        (Sample::Int, true, "", "X", "none"),
    ] {
        let found = looked_up(rt.alloc(), kind, is_pointer, path, text)?;
        assert_eq!(rt; found, want, "{path}.{text}");
    }
    Ok(())
}

fn implemented(
    alloc: Global,
    kind: Sample,
    is_pointer: bool,
    interface: Sample,
) -> Result<&'static str, Fail> {
    let mut table = TypeTable::new(alloc);
    let decls = world(alloc, &mut table)?;
    let mut env = ListEnv::new(Vec::new(alloc), decls);
    let bound = make_sample(alloc, &mut table, Sample::I)?;
    let bounds = bounds(alloc, bound)?;
    let t = maybe_pointer(alloc, &mut table, kind, is_pointer)?;
    let interface = make_sample(alloc, &mut table, interface)?;
    match implements(alloc, &mut env, &mut table, &bounds, t, interface) {
        Ok(()) => Ok("implements"),
        Err(SetFault::Unfit(Unfit::NoMethod { name })) => {
            if name.name.bytes() == b"V".as_slice() {
                return Ok("lacks V");
            }
            Ok("lacks another")
        }
        Err(_) => Ok("fault"),
    }
}

// Only the methods with a value receiver are in the method set of the type itself. What is no
// interface asks for none.
#[test]
fn interfaces(rt: HostRuntime) -> Result<(), Fail> {
    for (kind, is_pointer, interface, want) in [
        (Sample::T, false, Sample::I, "implements"),
        (Sample::T, true, Sample::I, "implements"),
        (Sample::T, false, Sample::Lists, "implements"),
        (Sample::Q, false, Sample::I, "lacks V"),
        (Sample::Struct, false, Sample::I, "lacks V"),
        (Sample::Int, false, Sample::I, "lacks V"),
        (Sample::Int, false, Sample::Struct, "implements"),
        (Sample::I, false, Sample::I, "implements"),
        (Sample::I, true, Sample::I, "lacks V"),
        (Sample::Lists, false, Sample::I, "implements"),
        (Sample::Bound, false, Sample::I, "implements"),
        (Sample::Bound, true, Sample::I, "lacks V"),
        (Sample::Free, false, Sample::I, "lacks V"),
        (Sample::Error, false, Sample::Error, "implements"),
        (Sample::Error, false, Sample::I, "lacks V"),
        (Sample::T, false, Sample::Error, "lacks another"),
    ] {
        let told = implemented(rt.alloc(), kind, is_pointer, interface)?;
        assert_eq!(rt; told, want);
    }
    Ok(())
}
