use crate::scene::{are_refused, stands};
use std::test::*;
use ui_base::Items;
use ui_edecl::{DeclaredMethodEl, DictEl, KeptEl, ObjEl, ObjExtEl, ParamEl, ValueEl};
use ui_eobj::PosEl;
use ui_etype::{Sel, TypeUse};
use ui_strpos::{Cause, Shape};

const POS: PosEl = PosEl {
    base: 0,
    line: 3,
    column: 7,
};

fn shape(code: u32, params: u32, methods: u32) -> Shape {
    Shape {
        code,
        params,
        methods,
    }
}

// Constants of each kind of value; the type is Type 0.
#[test]
fn constants(rt: HostRuntime) -> Result<(), Fail> {
    let alloc = rt.alloc();
    let rows = [
        (
            b"\x02\x02\x00\x05\x00\x01\x00\x03\x07\x00\x01\x00\x00\x01".as_slice(),
            ValueEl::Bool(true),
        ),
        (
            b"\x03\x02\x00\x05\x00\x00\x07\x01\x00\x03\x07\x00\x01\x00\x01\x02",
            ValueEl::Text(7),
        ),
        (
            b"\x02\x02\x00\x05\x00\x01\x00\x03\x07\x00\x01\x00\x02\x0d",
            ValueEl::Int64(-7),
        ),
        (
            b"\x03\x02\x00\x05\x00\x00\x05\x01\x00\x03\x07\x00\x01\x00\x03\x02\x00",
            ValueEl::Big {
                magnitude: 5,
                negative: false,
            },
        ),
        (
            b"\x03\x02\x00\x05\x00\x00\x06\x01\x00\x03\x07\x00\x01\x00\x03\x02\x01",
            ValueEl::Big {
                magnitude: 6,
                negative: true,
            },
        ),
    ];
    for (bytes, value) in rows {
        let constant = ObjEl::Const {
            pos: POS,
            ty: TypeUse::Type(0),
            value,
        };
        stands(alloc, &shape(1, 0, 0), 0, bytes, &constant)?;
    }
    Ok(())
}

#[test]
fn aliases_variables_and_stubs(rt: HostRuntime) -> Result<(), Fail> {
    let alloc = rt.alloc();
    let bytes = b"\x02\x02\x00\x05\x02\x01\x00\x03\x07\x00\x01";
    let ty = TypeUse::Type(2);
    stands(
        alloc,
        &shape(0, 0, 0),
        0,
        bytes,
        &ObjEl::Alias { pos: POS, ty },
    )?;
    stands(
        alloc,
        &shape(4, 0, 0),
        0,
        bytes,
        &ObjEl::Var { pos: POS, ty },
    )?;
    stands(alloc, &shape(5, 0, 0), 0, b"\x00", &ObjEl::Stub)
}

// A function with the type parameters `_` and `a`.
#[test]
fn functions(rt: HostRuntime) -> Result<(), Fail> {
    let alloc = rt.alloc();
    let function = ObjEl::Func {
        pos: POS,
        params: Items::new(vec![in alloc; ParamEl { name: 4 }, ParamEl { name: 0 }]?),
        sig: TypeUse::Derived(1),
    };
    stands(
        alloc,
        &shape(3, 2, 0),
        0,
        b"\x03\x02\x00\x00\x04\x00\x00\x01\x00\x03\x07\x01\x02\x01\x01",
        &function,
    )
}

// A defined type with the methods `M` and, on pointers, `m` of the package 1.
#[test]
fn defined_types(rt: HostRuntime) -> Result<(), Fail> {
    let alloc = rt.alloc();
    let methods = vec![in alloc;
        DeclaredMethodEl {
            sel: Sel { name: 3, pkg: None },
            pos: POS,
            pointer: false,
            sig: TypeUse::Type(1)
        },
        DeclaredMethodEl {
            sel: Sel {
                name: 2,
                pkg: Some(1)
            },
            pos: POS,
            pointer: true,
            sig: TypeUse::Type(1)
        },
    ]?;
    let defined = ObjEl::Defined {
        pos: POS,
        params: Items::new(Vec::new(alloc)),
        under: TypeUse::Type(0),
        methods: Items::new(methods),
    };
    stands(
        alloc,
        &shape(2, 0, 0),
        0,
        b"\x06\x02\x00\x05\x00\x00\x03\x05\x01\x00\x02\x03\x01\x01\x00\x03\x07\x00\x01\x02\x02\x01\x00\x03\x07\x00\x00\x03\x04\x05\x01\x00\x03\x07\x01\x00\x03",
        &defined,
    )
}

#[test]
fn extensions(rt: HostRuntime) -> Result<(), Fail> {
    let alloc = rt.alloc();
    let kept = KeptEl { body: Some(0) };
    let none = KeptEl { body: None };
    stands(
        alloc,
        &shape(3, 0, 0),
        0,
        b"\x01\x09\x00\x01\x00",
        &ObjExtEl::Func(kept),
    )?;
    stands(
        alloc,
        &shape(3, 0, 0),
        0,
        b"\x00\x00",
        &ObjExtEl::Func(none),
    )?;
    let two = Items::new(vec![in alloc; none, kept]?);
    stands(
        alloc,
        &shape(2, 0, 2),
        0,
        b"\x01\x09\x00\x00\x01\x00",
        &ObjExtEl::Defined(two),
    )?;
    stands(alloc, &shape(1, 0, 0), 0, b"\x00", &ObjExtEl::Other)?;
    stands(
        alloc,
        &shape(1, 0, 0),
        0,
        b"\x00\x00\x00\x00\x00\x00\x00\x00",
        &DictEl {},
    )
}

#[test]
fn refused_constants(rt: HostRuntime) -> Result<(), Fail> {
    let rows = [
        (b"\x00\x00".as_slice(), 1, Cause::BadCode, "no place"),
        (b"\x01\x02\x00\x01\x00\x00", 5, Cause::BadCode, "line 0"),
        (
            b"\x01\x02\x00\x01\x00\x03\x80\x80\x80\x80\x10",
            6,
            Cause::BadCode,
            "column 2^32",
        ),
        (
            b"\x02\x02\x00\x05\x00\x01\x00\x03\x07\x00\x01\x01",
            11,
            Cause::BadCode,
            "complex",
        ),
        (
            b"\x02\x02\x00\x05\x00\x01\x00\x03\x07\x00\x01\x00\x04",
            12,
            Cause::BadCode,
            "code 4",
        ),
        (
            b"\x03\x02\x00\x05\x00\x00\x09\x01\x00\x03\x07\x00\x01\x00\x03\x02\x00",
            15,
            Cause::BadText,
            "a magnitude that 64 bits hold",
        ),
        (
            b"\x03\x02\x00\x05\x00\x00\x05\x01\x00\x03\x07\x00\x01\x00\x03\x02\x01",
            16,
            Cause::BadText,
            "2^63 with the sign that 64 bits hold",
        ),
    ];
    are_refused::<ObjEl>(rt.alloc(), &shape(1, 0, 0), 0, &rows)
}

#[test]
fn refused_defined_types(rt: HostRuntime) -> Result<(), Fail> {
    let rows = [
        (
            b"\x05\x02\x00\x05\x00\x00\x01\x05\x01\x00\x03\x01\x00\x03\x07\x00\x01\x02\x02\x01\x00\x03\x07\x00\x00\x03\x04".as_slice(),
            26,
            Cause::WrongCount,
            "methods that don't ascend",
        ),
        (
            b"\x04\x02\x00\x05\x00\x00\x01\x05\x01\x01\x00\x03\x07\x00\x01\x02\x02\x01\x00\x03\x07\x00\x00\x03\x02",
            24,
            Cause::WrongCount,
            "an exported method twice",
        ),
    ];
    are_refused::<ObjEl>(rt.alloc(), &shape(2, 0, 0), 0, &rows)
}

#[test]
fn refused_extensions(rt: HostRuntime) -> Result<(), Fail> {
    let rows = [
        (b"\x00\x02".as_slice(), 1, Cause::BadBool, "a flag of 2"),
        (b"\x00\x01\x00", 2, Cause::BadIndex, "no entry"),
        (b"\x01\x09\x01\x01\x00", 2, Cause::BadIndex, "no such Body"),
    ];
    are_refused::<ObjExtEl>(rt.alloc(), &shape(3, 0, 0), 0, &rows)?;
    let rows = [(
        b"\x00\x00\x01".as_slice(),
        2,
        Cause::BadCode,
        "a parameter of a dictionary",
    )];
    are_refused::<DictEl>(rt.alloc(), &shape(1, 0, 0), 0, &rows)
}
