//! An environment by hand, and types over it.
ghost use Rattle.std.specs.Prelude.{◌≡◌, [], ◌∷◌, All, IfOk, OnOk, map};
ghost use Rattle.ui_types.specs.Table.{Table, IsId, AreIds, Grows};
ghost use Rattle.ui_types.specs.Decls.{AreDecls};

use crate::spelling::name;
use std::alloc::Global;
use ui_types::{
    Basic, Decl, Decls, Face, Field, Fields, Ids, Method, MethodFace, MethodFaces, Methods, Name,
    NoMemory, Pos, TParam, TParams, Text, TypeFault, TypeId, TypeNode, TypeTable,
};

/// The types that the rows speak of.
#[derive(Clone, Copy)]
pub enum Sample {
    Int,
    /// `struct{ X int; p.y int }`
    Struct,
    /// `interface{ V() }`
    Lists,
    /// `T` with the methods `V` and, with a pointer receiver, `P`, over the struct
    T,
    /// `I` over the interface
    I,
    /// `Q` over `*T`, for which a method `V` is kept
    Q,
    /// the first type parameter, whose constraint is `I`
    Bound,
    /// the second one, which has none
    Free,
    /// `error`
    Error,
}

fn no_ids(alloc: Global) -> Ids
    ensures { result ≡ [] }
{
    Ids::new(Vec::new(alloc))
}

/// `func()`
pub fn signature(alloc: Global, table: &mut TypeTable) -> Result<TypeId, TypeFault>
    ensures made { IfOk result (IsId table.new) }
    ensures grows { Grows table.old table.new }
{
    let params = no_ids(alloc);
    let results = no_ids(alloc);
    table.intern(alloc, TypeNode::Func { params, results })
}

fn fields(alloc: Global, ty: TypeId) -> Result<Fields, NoMemory>
    ensures { IfOk result (λ fields. map (λ f. f.ty) fields ≡ ty ∷ ty ∷ []) }
{
    let exported = name(alloc, "", "X")?;
    let own = name(alloc, "p", "y")?;
    let mut fields = Vec::new(alloc);
    fields.push(Field { name: exported, ty })?;
    fields.push(Field { name: own, ty })?;
    Ok(Fields::new(fields))
}

fn listed(alloc: Global, sig: TypeId) -> Result<Methods, NoMemory>
    ensures { IfOk result (λ methods. map (λ m. m.sig) methods ≡ sig ∷ []) }
{
    let name = name(alloc, "", "V")?;
    let mut methods = Vec::new(alloc);
    methods.push(Method { name, sig })?;
    Ok(Methods::new(methods))
}

fn struct_type(alloc: Global, table: &mut TypeTable) -> Result<TypeId, TypeFault>
    ensures made { IfOk result (IsId table.new) }
    ensures grows { Grows table.old table.new }
{
    let int = table.intern(alloc, TypeNode::Basic(Basic::Int))?;
    let fields = fields(alloc, int)?;
    table.intern(alloc, TypeNode::Struct(fields))
}

fn interface_type(alloc: Global, table: &mut TypeTable) -> Result<TypeId, TypeFault>
    ensures made { IfOk result (IsId table.new) }
    ensures grows { Grows table.old table.new }
{
    let sig = signature(alloc, table)?;
    let methods = listed(alloc, sig)?;
    let unions = no_ids(alloc);
    table.intern(
        alloc,
        TypeNode::Iface {
            methods,
            comparable: false,
            unions,
        },
    )
}

/// A declared type without arguments.
pub fn declared(
    alloc: Global,
    table: &mut TypeTable,
    path: &str,
    text: &str,
) -> Result<TypeId, TypeFault>
    ensures made { IfOk result (IsId table.new) }
    ensures grows { Grows table.old table.new }
{
    let name = name(alloc, path, text)?;
    let args = no_ids(alloc);
    table.intern(alloc, TypeNode::Named { name, args })
}

/// The type of a sample.
pub fn make_sample(
    alloc: Global,
    table: &mut TypeTable,
    sample: Sample,
) -> Result<TypeId, TypeFault>
    ensures made { IfOk result (IsId table.new) }
    ensures grows { Grows table.old table.new }
{
    match sample {
        Sample::Int => table.intern(alloc, TypeNode::Basic(Basic::Int)),
        Sample::Struct => struct_type(alloc, table),
        Sample::Lists => interface_type(alloc, table),
        Sample::T => declared(alloc, table, "p", "T"),
        Sample::I => declared(alloc, table, "p", "I"),
        Sample::Q => declared(alloc, table, "p", "Q"),
        Sample::Bound => table.intern(alloc, TypeNode::Param(0)),
        Sample::Free => table.intern(alloc, TypeNode::Param(1)),
        Sample::Error => declared(alloc, table, "builtin", "error"),
    }
}

/// The same, or a pointer to it.
pub fn maybe_pointer(
    alloc: Global,
    table: &mut TypeTable,
    kind: Sample,
    is_pointer: bool,
) -> Result<TypeId, TypeFault>
    ensures made { IfOk result (IsId table.new) }
    ensures grows { Grows table.old table.new }
{
    let t = make_sample(alloc, table, kind)?;
    if is_pointer {
        return table.intern(alloc, TypeNode::Pointer(t));
    }
    Ok(t)
}

fn nowhere(alloc: Global) -> Pos {
    Pos {
        file: Text::new(Vec::new(alloc)),
        line: 1,
        col: 1,
    }
}

fn method(alloc: Global, text: &str, pointer: bool, sig: TypeId) -> Result<MethodFace, NoMemory>
    ensures { IfOk result (λ m. m.sig ≡ sig) }
{
    let name = name(alloc, "", text)?;
    let pos = nowhere(alloc);
    Ok(MethodFace {
        name,
        pos,
        pointer,
        sig,
    })
}

/// `V`, and `P` with a pointer receiver.
pub fn methods(alloc: Global, sig: TypeId) -> Result<MethodFaces, NoMemory>
    ensures { (table : Table) → IsId table sig → IfOk result (All (λ m. IsId table m.sig)) }
{
    let pointer = method(alloc, "P", true, sig)?;
    let value = method(alloc, "V", false, sig)?;
    let mut methods = Vec::new(alloc);
    methods.push(pointer)?;
    methods.push(value)?;
    Ok(MethodFaces::new(methods))
}

/// No methods.
pub fn no_methods(alloc: Global) -> MethodFaces
    ensures { (table : Table) → All (λ m. IsId table m.sig) result }
{
    MethodFaces::new(Vec::new(alloc))
}

/// No type parameters.
pub fn no_params(alloc: Global) -> TParams
    ensures { (table : Table) → All (λ p. IsId table p.bound) result }
{
    TParams::new(Vec::new(alloc))
}

/// Puts `type NAME under` with these type parameters and methods at the end.
pub fn declare(
    alloc: Global,
    decls: &mut Vec<(Name, Decl)>,
    text: &str,
    params: TParams,
    under: TypeId,
    methods: MethodFaces,
) -> Result<(), NoMemory>
    ensures { (table : Table) → AreDecls table decls.old.items
        → All (λ p. IsId table p.bound) params → IsId table under
        → All (λ m. IsId table m.sig) methods → OnOk result (AreDecls table decls.new.items) }
{
    let name = name(alloc, "p", text)?;
    let pos = nowhere(alloc);
    let face = Face::Defined {
        params,
        under,
        methods,
    };
    decls.push((name, Decl { pos, face }))?;
    Ok(())
}

// The declarations of `T`, `I` and `Q` over these types.
fn declarations(
    alloc: Global,
    under: TypeId,
    interface: TypeId,
    pointer: TypeId,
    sig: TypeId,
) -> Result<Decls, NoMemory>
    ensures { (table : Table) → IsId table under → IsId table interface → IsId table pointer
        → IsId table sig → IfOk result (AreDecls table) }
{
    let mut decls = Vec::new(alloc);
    let of_value = methods(alloc, sig)?;
    declare(alloc, &mut decls, "T", no_params(alloc), under, of_value)?;
    declare(
        alloc,
        &mut decls,
        "I",
        no_params(alloc),
        interface,
        no_methods(alloc),
    )?;
    let of_pointer = methods(alloc, sig)?;
    declare(
        alloc,
        &mut decls,
        "Q",
        no_params(alloc),
        pointer,
        of_pointer,
    )?;
    Ok(Decls::new(decls))
}

/// What is declared.
pub fn world(alloc: Global, table: &mut TypeTable) -> Result<Decls, TypeFault>
    ensures made { IfOk result (AreDecls table.new) }
    ensures grows { Grows table.old table.new }
{
    let under = struct_type(alloc, table)?;
    let interface = interface_type(alloc, table)?;
    let pointer = maybe_pointer(alloc, table, Sample::T, true)?;
    let sig = signature(alloc, table)?;
    let decls = declarations(alloc, under, interface, pointer, sig)?;
    Ok(decls)
}

/// The constraints in scope: that of the first type parameter.
pub fn bounds(alloc: Global, bound: TypeId) -> Result<Ids, NoMemory>
    ensures { IfOk result (λ ids. ids ≡ bound ∷ []) }
{
    let mut ids = Vec::new(alloc);
    ids.push(bound)?;
    Ok(Ids::new(ids))
}
