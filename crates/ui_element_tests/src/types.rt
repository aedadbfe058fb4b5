use crate::scene::{are_refused, stands};
use std::alloc::Global;
use std::test::*;
use ui_base::Items;
use ui_etype::{FieldEl, MethodEl, Sel, TermEl, TypeEl, TypeUse};
use ui_strpos::{Cause, Shape};

const SHAPE: Shape = Shape {
    code: 0,
    params: 0,
    methods: 0,
};

const OWN: u32 = 2;

fn is(alloc: Global, bytes: &[u8], value: &TypeEl) -> Result<(), Fail> {
    stands(alloc, &SHAPE, OWN, bytes, value)
}

// Those without lists.
#[test]
fn plain_types(rt: HostRuntime) -> Result<(), Fail> {
    let alloc = rt.alloc();
    let first = TypeUse::Type(0);
    let second = TypeUse::Type(1);
    is(alloc, b"\x00\x00\x14", &TypeEl::Basic(20))?;
    is(alloc, b"\x01\x05\x00\x02\x00\x00", &TypeEl::Pointer(first))?;
    is(
        alloc,
        b"\x00\x03\x01\x07",
        &TypeEl::Slice(TypeUse::Derived(7)),
    )?;
    let array = TypeEl::Array {
        len: 300,
        elem: second,
    };
    is(alloc, b"\x01\x05\x01\x04\xac\x02\x00\x00", &array)?;
    let map = TypeEl::Map {
        key: second,
        elem: first,
    };
    is(alloc, b"\x02\x05\x01\x05\x00\x06\x00\x00\x00\x01", &map)?;
    is(alloc, b"\x00\x0b\x03", &TypeEl::TypeParam(3))
}

#[test]
fn named_types(rt: HostRuntime) -> Result<(), Fail> {
    let alloc = rt.alloc();
    let named = TypeEl::Named {
        object: 1,
        args: Items::new(vec![in alloc; TypeUse::Type(0), TypeUse::Derived(2)]?),
    };
    is(
        alloc,
        b"\x02\x06\x01\x05\x00\x01\x00\x00\x02\x00\x01\x01\x02",
        &named,
    )
}

#[test]
fn signatures(rt: HostRuntime) -> Result<(), Fail> {
    let alloc = rt.alloc();
    let signature = TypeEl::Signature {
        params: Items::new(vec![in alloc; TypeUse::Type(0), TypeUse::Type(0)]?),
        results: Items::new(vec![in alloc; TypeUse::Type(1)]?),
    };
    is(
        alloc,
        b"\x02\x05\x00\x05\x01\x07\x02\x00\x00\x00\x00\x01\x00\x01",
        &signature,
    )
}

// Fields `M` and `m` of the package 0.
#[test]
fn structs(rt: HostRuntime) -> Result<(), Fail> {
    let alloc = rt.alloc();
    let fields = vec![in alloc;
        FieldEl {
            sel: Sel { name: 3, pkg: None },
            ty: TypeUse::Type(0)
        },
        FieldEl {
            sel: Sel {
                name: 2,
                pkg: Some(0)
            },
            ty: TypeUse::Type(0)
        },
    ]?;
    is(
        alloc,
        b"\x04\x00\x03\x05\x00\x00\x02\x03\x00\x08\x02\x00\x00\x01\x02\x03\x00\x01",
        &TypeEl::Struct(Items::new(fields)),
    )
}

// Methods `M`, `N` and `m`, `comparable`, and one union.
#[test]
fn interfaces(rt: HostRuntime) -> Result<(), Fail> {
    let alloc = rt.alloc();
    let methods = vec![in alloc;
        MethodEl {
            sel: Sel { name: 3, pkg: None },
            sig: TypeUse::Type(0)
        },
        MethodEl {
            sel: Sel { name: 1, pkg: None },
            sig: TypeUse::Type(0)
        },
        MethodEl {
            sel: Sel {
                name: 2,
                pkg: Some(1)
            },
            sig: TypeUse::Type(0)
        },
    ]?;
    let interface = TypeEl::Interface {
        methods: Items::new(methods),
        comparable: true,
        unions: Items::new(vec![in alloc; TypeUse::Type(1)]?),
    };
    is(
        alloc,
        b"\x06\x00\x03\x05\x00\x00\x01\x00\x02\x03\x01\x05\x01\x09\x03\x00\x00\x01\x02\x00\x01\x03\x04\x00\x01\x01\x01\x00\x05",
        &interface,
    )
}

#[test]
fn unions(rt: HostRuntime) -> Result<(), Fail> {
    let alloc = rt.alloc();
    let terms = vec![in alloc;
        TermEl {
            tilde: true,
            ty: TypeUse::Type(0)
        },
        TermEl {
            tilde: false,
            ty: TypeUse::Type(1)
        },
    ]?;
    is(
        alloc,
        b"\x02\x05\x00\x05\x01\x0a\x02\x01\x00\x00\x00\x00\x01",
        &TypeEl::Union(Items::new(terms)),
    )
}

// The places and causes were worked out by hand from the table of types.
#[test]
fn refused_types(rt: HostRuntime) -> Result<(), Fail> {
    let rows = [
        (b"".as_slice(), 0, Cause::Cut, "empty"),
        (b"\x00", 1, Cause::Cut, "no code"),
        (b"\x00\x94\x00", 1, Cause::LongNumber, "a padded code"),
        (b"\x00\x00\x94\x00", 2, Cause::LongNumber, "a padded kind"),
        (b"\x00\x05", 1, Cause::BadCode, "code 5"),
        (b"\x00\x0c", 1, Cause::BadCode, "code 12"),
        (b"\x00\x00\x00", 2, Cause::BadCode, "kind 0"),
        (b"\x00\x00\x0c", 2, Cause::BadCode, "kind 12"),
        (b"\x00\x00\x12", 2, Cause::BadCode, "kind 18"),
        (b"\x00\x00\x1a", 2, Cause::BadCode, "kind 26"),
        (b"\x00\x02\x02", 2, Cause::BadBool, "a flag of 2"),
        (b"\x00\x02\x00\x00", 3, Cause::BadIndex, "no entry"),
        (
            b"\x01\x06\x00\x02\x00\x00",
            5,
            Cause::BadSection,
            "an Obj as a type",
        ),
        (
            b"\x01\x05\x02\x02\x00\x00",
            5,
            Cause::TypeOrder,
            "its own number",
        ),
        (
            b"\x01\x05\x03\x02\x00\x00",
            2,
            Cause::BadIndex,
            "no such Type",
        ),
        (
            b"\x01\x0a\x00\x02\x00\x00",
            1,
            Cause::BadSection,
            "section 10",
        ),
        (
            b"\x02\x05\x00\x05\x01\x02\x00\x01",
            7,
            Cause::TableOrder,
            "the second entry first",
        ),
        (
            b"\x02\x05\x00\x05\x00\x02\x00\x00",
            3,
            Cause::TableOrder,
            "an entry twice",
        ),
        (
            b"\x01\x05\x00\x00\x14",
            0,
            Cause::TableUse,
            "an entry unused",
        ),
        (
            b"\x01\x05\x00\x00\x14\x00",
            0,
            Cause::TableUse,
            "and a byte left",
        ),
        (b"\x00\x00\x14\x00", 3, Cause::Tail, "a byte left"),
        (
            b"\x00\x04\x80\x80\x80\x80\x80\x80\x80\x80\x80\x01",
            2,
            Cause::WrongCount,
            "a length of 2^63",
        ),
        (
            b"\x01\x06\x00\x01\x01",
            4,
            Cause::BadCode,
            "named with a flag set",
        ),
        (b"\x00\x0a\x00", 2, Cause::BadCode, "a union of nothing"),
        (
            b"\x02\x00\x08\x05\x00\x08\x01\x00\x00\x01",
            7,
            Cause::BadText,
            "a keyword as a field",
        ),
        (
            b"\x02\x00\x02\x05\x00\x08\x01\x00\x00\x01",
            8,
            Cause::BadSection,
            "no package after a name that isn't exported",
        ),
        (
            b"\x03\x00\x01\x05\x00\x00\x03\x09\x02\x00\x00\x01\x02\x00\x01\x00\x00",
            12,
            Cause::WrongCount,
            "methods that don't ascend",
        ),
        (
            b"\x02\x00\x01\x05\x00\x09\x02\x00\x00\x01\x00\x00\x01",
            10,
            Cause::WrongCount,
            "a method twice",
        ),
        (
            b"\x04\x00\x02\x03\x00\x05\x00\x00\x01\x09\x02\x00\x01\x00\x02\x03\x00\x02\x00\x00",
            15,
            Cause::WrongCount,
            "an exported method after one that isn't",
        ),
    ];
    are_refused::<TypeEl>(rt.alloc(), &SHAPE, OWN, &rows)
}
