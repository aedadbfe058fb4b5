//! Types of every kind, their limits, and what they stand for in an environment.

ghost use Rattle.std.specs.Prelude.{◌≡◌, [], ◌∷◌, IfOk, map};
ghost use Rattle.ui_types.specs.Table.{Table, IsId, AreIds, IsNode, Grows};
ghost use Rattle.ui_types.specs.Decls.{IsFace, AreDecls};
ghost use Rattle.ui_types.specs.Kept.{Kept};

use std::alloc::Global;
use std::test::Fail;
use ui_types::{
    Basic, Decl, Decls, Env, Face, Field, Fields, Ids, ListEnv, Method, MethodFaces, Methods, Name,
    NoMemory, Pos, TParam, TParams, Term, Terms, Text, TypeFault, TypeId, TypeNode, TypeTable,
    Value, underlying,
};

fn name(alloc: Global, text: &[u8]) -> Result<Name, NoMemory> {
    let path = Text::new(Vec::new(alloc));
    let name = Text::from_slice(alloc, text)?;
    Ok(Name { path, name })
}

fn ids(alloc: Global, first: TypeId, second: TypeId) -> Result<Ids, NoMemory>
    ensures { IfOk result (λ ids. ids ≡ first ∷ second ∷ []) }
{
    let mut ids = Vec::new(alloc);
    ids.push(first)?;
    ids.push(second)?;
    Ok(Ids::new(ids))
}

fn fields(alloc: Global, first: TypeId, second: TypeId) -> Result<Fields, NoMemory>
    ensures { IfOk result (λ fields. map (λ f. f.ty) fields ≡ first ∷ second ∷ []) }
{
    let mut fields = Vec::new(alloc);
    let a = name(alloc, b"A")?;
    fields.push(Field { name: a, ty: first })?;
    let b = name(alloc, b"B")?;
    fields.push(Field {
        name: b,
        ty: second,
    })?;
    Ok(Fields::new(fields))
}

fn methods(alloc: Global, sig: TypeId) -> Result<Methods, NoMemory>
    ensures { IfOk result (λ methods. map (λ m. m.sig) methods ≡ sig ∷ []) }
{
    let mut methods = Vec::new(alloc);
    let name = name(alloc, b"M")?;
    methods.push(Method { name, sig })?;
    Ok(Methods::new(methods))
}

fn terms(alloc: Global, first: TypeId, second: TypeId) -> Result<Terms, NoMemory>
    ensures { IfOk result (λ terms. map (λ t. t.ty) terms ≡ first ∷ second ∷ []) }
{
    let mut terms = Vec::new(alloc);
    terms.push(Term {
        tilde: true,
        ty: first,
    })?;
    terms.push(Term {
        tilde: false,
        ty: second,
    })?;
    Ok(Terms::new(terms))
}

// A node of each kind over the two types.
fn sample(
    alloc: Global,
    table: &TypeTable,
    kind: u32,
    first: TypeId,
    second: TypeId,
) -> Result<TypeNode, NoMemory>
    requires first { IsId table.now first }
    requires second { IsId table.now second }
    ensures { IfOk result (IsNode table.now) }
{
    match kind {
        0 => Ok(TypeNode::Basic(Basic::Int)),
        1 => {
            let name = name(alloc, b"T")?;
            let args = ids(alloc, first, second)?;
            Ok(TypeNode::Named { name, args })
        }
        2 => Ok(TypeNode::Pointer(first)),
        3 => Ok(TypeNode::Slice(first)),
        4 => Ok(TypeNode::Array {
            len: 7,
            elem: second,
        }),
        5 => Ok(TypeNode::Map {
            key: first,
            elem: second,
        }),
        6 => {
            let params = ids(alloc, first, second)?;
            let results = ids(alloc, second, second)?;
            Ok(TypeNode::Func { params, results })
        }
        7 => {
            let fields = fields(alloc, first, second)?;
            Ok(TypeNode::Struct(fields))
        }
        8 => {
            let methods = methods(alloc, first)?;
            let unions = ids(alloc, second, first)?;
            Ok(TypeNode::Iface {
                methods,
                comparable: true,
                unions,
            })
        }
        9 => {
            let terms = terms(alloc, first, second)?;
            Ok(TypeNode::Union(terms))
        }
        _ => Ok(TypeNode::Param(5)),
    }
}

// Whether a node of this kind over two parameters is interned once, and becomes the same node over
// two types.
fn is_kept(
    alloc: Global,
    table: &mut TypeTable,
    kind: u32,
    params: (TypeId, TypeId),
    types: (TypeId, TypeId),
) -> Result<bool, TypeFault>
    requires params { IsId table.old params.0 × IsId table.old params.1 }
    requires types { IsId table.old types.0 × IsId table.old types.1 }
    ensures grows { Grows table.old table.new }
{
    let node = sample(alloc, table, kind, params.0, params.1)?;
    let copy = node.copy(alloc)?;
    let generic = table.intern(alloc, node)?;
    let again = table.intern(alloc, copy)?;
    let made = table.subst(alloc, generic, &[types.0, types.1])?;
    let node = sample(alloc, table, kind, types.0, types.1)?;
    let wanted = table.intern(alloc, node)?;
    Ok(generic == again && table.same(made, wanted))
}

#[test]
fn each_kind(rt: HostRuntime) -> Result<(), Fail> {
    let alloc = rt.alloc();
    let mut table = TypeTable::new(alloc);
    let first = table.intern(alloc, TypeNode::Param(0))?;
    let second = table.intern(alloc, TypeNode::Param(1))?;
    let int = table.intern(alloc, TypeNode::Basic(Basic::Int))?;
    let text = table.intern(alloc, TypeNode::Basic(Basic::String))?;
    for kind in 0..11 {
        assert!(rt; is_kept(alloc, &mut table, kind, (first, second), (int, text))?);
    }
    Ok(())
}

// A struct of two fields of this type.
fn pair(alloc: Global, table: &mut TypeTable, t: TypeId) -> Result<TypeId, TypeFault>
    requires { IsId table.old t }
    ensures made { IfOk result (IsId table.new) }
    ensures grows { Grows table.old table.new }
{
    let fields = fields(alloc, t, t)?;
    table.intern(alloc, TypeNode::Struct(fields))
}

// So many structs of two fields, each of the one before.
fn pairs(alloc: Global, table: &mut TypeTable, t: TypeId, count: u32) -> Result<TypeId, TypeFault>
    requires { IsId table.old t }
    ensures made { IfOk result (IsId table.new) }
    ensures grows { Grows table.old table.new }
{
    let mut made = t;
    for _ in 0..count {
        made = pair(alloc, table, made)?;
    }
    Ok(made)
}

// So many pointers, each to the one before.
fn pointers(
    alloc: Global,
    table: &mut TypeTable,
    t: TypeId,
    count: u32,
) -> Result<TypeId, TypeFault>
    requires { IsId table.old t }
    ensures made { IfOk result (IsId table.new) }
    ensures grows { Grows table.old table.new }
{
    let mut made = t;
    for _ in 0..count {
        made = table.intern(alloc, TypeNode::Pointer(made))?;
    }
    Ok(made)
}

// A chain of fifteen pairs is the largest, and is substituted by its sixteen ids and not by its
// tree.
#[test]
fn sizes_to_the_limit(rt: HostRuntime) -> Result<(), Fail> {
    let alloc = rt.alloc();
    let mut table = TypeTable::new(alloc);
    let param = table.intern(alloc, TypeNode::Param(0))?;
    let int = table.intern(alloc, TypeNode::Basic(Basic::Int))?;
    let generic = pairs(alloc, &mut table, param, 15)?;
    let made = table.subst(alloc, generic, &[int])?;
    assert!(rt; table.size(made) == 65535 && table.depth(made) == 16);
    let two = pair(alloc, &mut table, int)?;
    let past = table.subst(alloc, generic, &[two]);
    assert!(rt; matches!(past, Err(TypeFault::TooBig { size: 131071 })));
    let past = pair(alloc, &mut table, made);
    assert!(rt; matches!(past, Err(TypeFault::TooBig { size: 131071 })));
    Ok(())
}

// The depth is told where the size is within its limit.
#[test]
fn depths_to_the_limit(rt: HostRuntime) -> Result<(), Fail> {
    let alloc = rt.alloc();
    let mut table = TypeTable::new(alloc);
    let int = table.intern(alloc, TypeNode::Basic(Basic::Int))?;
    let deep = pointers(alloc, &mut table, int, 255)?;
    assert!(rt; table.depth(deep) == 256);
    let large = pairs(alloc, &mut table, int, 15)?;
    let past = table.intern(alloc, TypeNode::Pointer(deep));
    assert!(rt; matches!(past, Err(TypeFault::TooDeep { depth: 257 })));
    let both = TypeNode::Map {
        key: large,
        elem: deep,
    };
    let past = table.intern(alloc, both);
    assert!(rt; matches!(past, Err(TypeFault::TooBig { size: 65792 })));
    Ok(())
}

// A substitution reaches depth 256, and is told by its number past it.
#[test]
fn substitutions_to_the_limit(rt: HostRuntime) -> Result<(), Fail> {
    let alloc = rt.alloc();
    let mut table = TypeTable::new(alloc);
    let param = table.intern(alloc, TypeNode::Param(0))?;
    let int = table.intern(alloc, TypeNode::Basic(Basic::Int))?;
    let generic = pointers(alloc, &mut table, param, 255)?;
    let deep = table.subst(alloc, generic, &[int])?;
    assert!(rt; table.depth(deep) == 256);
    let pointer = table.intern(alloc, TypeNode::Pointer(int))?;
    let past = table.subst(alloc, generic, &[pointer]);
    assert!(rt; matches!(past, Err(TypeFault::TooDeep { depth: 257 })));
    Ok(())
}

// A type parameter without an argument stays.
#[test]
fn parameters_without_arguments(rt: HostRuntime) -> Result<(), Fail> {
    let alloc = rt.alloc();
    let mut table = TypeTable::new(alloc);
    let key = table.intern(alloc, TypeNode::Param(0))?;
    let elem = table.intern(alloc, TypeNode::Param(1))?;
    let int = table.intern(alloc, TypeNode::Basic(Basic::Int))?;
    let generic = table.intern(alloc, TypeNode::Map { key, elem })?;
    let none = table.subst(alloc, generic, &[])?;
    assert!(rt; table.same(none, generic));
    let one = table.subst(alloc, generic, &[int])?;
    let wanted = table.intern(alloc, TypeNode::Map { key: int, elem })?;
    assert!(rt; table.same(one, wanted));
    Ok(())
}

// Puts a declaration at the end.
fn declare(
    alloc: Global,
    decls: &mut Vec<(Name, Decl)>,
    text: &[u8],
    face: Face,
) -> Result<(), NoMemory>
    ensures { (table : Table) → AreDecls table decls.old.items → IsFace table face
        → AreDecls table decls.new.items }
{
    let name = name(alloc, text)?;
    let pos = Pos {
        file: Text::new(Vec::new(alloc)),
        line: 1,
        col: 1,
    };
    decls.push((name, Decl { pos, face }))?;
    Ok(())
}

fn one_param(alloc: Global, bound: TypeId) -> Result<TParams, NoMemory>
    ensures { IfOk result (λ params. map (λ p. p.bound) params ≡ bound ∷ []) }
{
    let mut params = Vec::new(alloc);
    let name = Text::from_slice(alloc, b"P")?;
    params.push(TParam { name, bound })?;
    Ok(TParams::new(params))
}

// `type T[P bound] under`, or `T` declared as an alias, a constant, a variable or a function.
fn face(alloc: Global, kind: u32, bound: TypeId, under: TypeId) -> Result<Face, NoMemory>
    ensures { (table : Table) → IsId table bound → IsId table under → IfOk result (IsFace table) }
{
    match kind {
        0 => {
            let params = one_param(alloc, bound)?;
            let methods = MethodFaces::new(Vec::new(alloc));
            Ok(Face::Defined {
                params,
                under,
                methods,
            })
        }
        1 => Ok(Face::Alias { ty: under }),
        2 => Ok(Face::Const {
            ty: under,
            value: Value::Whole(7),
        }),
        3 => Ok(Face::Var { ty: under }),
        _ => {
            let params = one_param(alloc, bound)?;
            Ok(Face::Func { params, sig: under })
        }
    }
}

// The one declaration of `T`.
fn example(alloc: Global, kind: u32, bound: TypeId, under: TypeId) -> Result<Decls, NoMemory>
    ensures { (table : Table) → IsId table bound → IsId table under → IfOk result (AreDecls table) }
{
    let face = face(alloc, kind, bound, under)?;
    let mut decls = Vec::new(alloc);
    declare(alloc, &mut decls, b"T", face)?;
    Ok(Decls::new(decls))
}

// A declared type with these arguments.
fn declared(
    alloc: Global,
    table: &mut TypeTable,
    name: Name,
    args: &[TypeId],
) -> Result<TypeId, TypeFault>
    requires { AreIds table.old args.now }
    ensures made { IfOk result (IsId table.new) }
    ensures grows { Grows table.old table.new }
{
    let args = Ids::new(Vec::from_slice(alloc, args)?);
    table.intern(alloc, TypeNode::Named { name, args })
}

// Whether the underlying type is this one.
fn is_under<E: Env>(
    alloc: Global,
    env: &mut E,
    table: &mut TypeTable,
    t: TypeId,
    wanted: TypeId,
) -> Result<bool, TypeFault>
    requires env { E.fits env.old table.old }
    requires id { IsId table.old t }
    requires wanted { IsId table.old wanted }
    ensures kept { Kept E.packages E.lent E.decls E.fits env.old table.old env.new table.new }
{
    let under = underlying(alloc, env, table, t)?;
    Ok(table.same(under, wanted))
}

// Whether `T[args]` has this underlying type, where `T` is declared so over a pointer to its
// parameter.
fn is_under_declared(
    alloc: Global,
    table: &mut TypeTable,
    kind: u32,
    args: &[TypeId],
    wanted: TypeId,
) -> Result<bool, TypeFault>
    requires arguments { AreIds table.old args.now }
    requires wanted { IsId table.old wanted }
    ensures grows { Grows table.old table.new }
{
    let param = table.intern(alloc, TypeNode::Param(0))?;
    let under = table.intern(alloc, TypeNode::Pointer(param))?;
    let t = declared(alloc, table, name(alloc, b"T")?, args)?;
    let decls = example(alloc, kind, param, under)?;
    let mut env = ListEnv::new(Vec::new(alloc), decls);
    is_under(alloc, &mut env, table, t, wanted)
}

// The underlying type of a defined type with its argument is that with the argument put in. With
// another number of arguments, or declared as anything else, it is the empty struct.
#[test]
fn underlying_types(rt: HostRuntime) -> Result<(), Fail> {
    let alloc = rt.alloc();
    let mut table = TypeTable::new(alloc);
    let int = table.intern(alloc, TypeNode::Basic(Basic::Int))?;
    let pointer = table.intern(alloc, TypeNode::Pointer(int))?;
    let empty = table.intern(alloc, TypeNode::Struct(Fields::new(Vec::new(alloc))))?;
    for kind in 0..5 {
        let wanted = if kind == 0 { pointer } else { empty };
        assert!(rt; is_under_declared(alloc, &mut table, kind, &[int], wanted)?);
        assert!(rt; is_under_declared(alloc, &mut table, kind, &[], empty)?);
        assert!(rt; is_under_declared(alloc, &mut table, kind, &[int, int], empty)?);
    }
    Ok(())
}

// Whether a name without a declaration counts as the empty struct.
fn is_empty(alloc: Global, path: &[u8], text: &[u8]) -> Result<bool, TypeFault> {
    let mut table = TypeTable::new(alloc);
    let empty = table.intern(alloc, TypeNode::Struct(Fields::new(Vec::new(alloc))))?;
    let path = Text::from_slice(alloc, path)?;
    let name = Text::from_slice(alloc, text)?;
    let t = declared(alloc, &mut table, Name { path, name }, &[])?;
    let mut env = ListEnv::new(Vec::new(alloc), Decls::new(Vec::new(alloc)));
    is_under(alloc, &mut env, &mut table, t, empty)
}

// Each does but the predeclared `error`.
#[test]
fn undeclared_types(rt: HostRuntime) -> Result<(), Fail> {
    for (path, text, want) in [
        ("", "T", true),
        ("p", "error", true),
        ("builtin", "error", false),
    ] {
        let is_empty = is_empty(rt.alloc(), path.as_bytes(), text.as_bytes())?;
        assert_eq!(rt; is_empty, want, "{path}.{text}");
    }
    Ok(())
}

// Package names by their paths.
#[test]
fn package_names(rt: HostRuntime) -> Result<(), Fail> {
    let alloc = rt.alloc();
    let path = Text::from_slice(alloc, b"x/a")?;
    let name = Text::from_slice(alloc, b"a")?;
    let mut packages = Vec::new(alloc);
    packages.push((path, name))?;
    let mut env = ListEnv::new(packages, Decls::new(Vec::new(alloc)));
    let found = env.package(alloc, &Text::from_slice(alloc, b"x/a")?)?;
    assert!(rt; found.is_some());
    let found = env.package(alloc, &Text::from_slice(alloc, b"x")?)?;
    assert!(rt; found.is_none());
    Ok(())
}
