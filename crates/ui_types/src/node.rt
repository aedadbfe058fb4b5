ghost use Rattle.std.specs.Prelude.{◌≡◌, ◌++◌, List, IfOk, length, map};
ghost use Rattle.ui_types.specs.Nodes.{ids_of, node_with};
ghost use Rattle.ui_types.specs.Parts.{with_types};
ghost use Rattle.ui_types.specs.declared.node.TypeNode.TheVariants as node;

use crate::id::{Ids, TypeId};
use crate::part::{Fields, Method, Methods, Part, Terms, parts_with, push_types, types_of};
use std::alloc::Global;
use ui_base::{Basic, Name, NoMemory};

/// One node of a type, with ids for its parts. Go specification, "Types".
#[derive(Drop, PartialEq, Eq, Hash)]
pub enum TypeNode {
    Basic(Basic),
    /// A declared type with its type arguments.
    Named {
        name: Name,
        args: Ids,
    },
    Pointer(TypeId),
    Slice(TypeId),
    Array {
        len: u64,
        elem: TypeId,
    },
    Map {
        key: TypeId,
        elem: TypeId,
    },
    Func {
        params: Ids,
        results: Ids,
    },
    Struct(Fields),
    /// Each of the unions is the id of a `Union`.
    Iface {
        methods: Methods,
        comparable: bool,
        unions: Ids,
    },
    Union(Terms),
    /// A type parameter of the declaration around, by its place from 0.
    Param(u32),
}

// The types of the first parts, and then of the second.
fn both_types<P: Part, Q: Part>(
    alloc: Global,
    first: &[P],
    second: &[Q],
) -> Result<Vec<TypeId>, NoMemory>
    ensures { IfOk result (λ ids. ids.items ≡ map P.type_of first.now ++ map Q.type_of second.now) }
{
    let mut ids = types_of(alloc, first)?;
    push_types(&mut ids, second)?;
    Ok(ids)
}

// A list of these ids, copied.
fn ids_from(alloc: Global, ids: &[TypeId]) -> Result<Ids, NoMemory>
    ensures { IfOk result (λ made. made ≡ ids.now) }
{
    Ok(Ids::new(Vec::from_slice(alloc, ids)?))
}

// A declared type with these arguments.
fn named_with(alloc: Global, name: &Name, args: &[TypeId]) -> Result<TypeNode, NoMemory>
    ensures { IfOk result (λ n. n ≡ node.Named name.now args.now) }
{
    let args = ids_from(alloc, args)?;
    let name = name.copy(alloc)?;
    Ok(TypeNode::Named { name, args })
}

// The type of functions with these parameters and results.
fn func_with(alloc: Global, params: &[TypeId], results: &[TypeId]) -> Result<TypeNode, NoMemory>
    ensures { IfOk result (λ n. n ≡ node.Func params.now results.now) }
{
    let params = ids_from(alloc, params)?;
    let results = ids_from(alloc, results)?;
    Ok(TypeNode::Func { params, results })
}

// An interface with these methods, whose signatures are these, and these unions.
fn iface_with(
    alloc: Global,
    methods: &[Method],
    sigs: &[TypeId],
    comparable: bool,
    unions: &[TypeId],
) -> Result<TypeNode, NoMemory>
    requires { length sigs.now ≡ length methods.now }
    ensures { IfOk result (λ n. n ≡ node.Iface
        (with_types (λ m t. record m { sig = t }) methods.now sigs.now) comparable unions.now) }
{
    let unions = ids_from(alloc, unions)?;
    let methods = parts_with(alloc, methods, sigs)?;
    Ok(TypeNode::Iface {
        methods,
        comparable,
        unions,
    })
}

#[tactic(auto, using(crate::proofs::PartLemmas::part_steps))]
impl TypeNode {
    /// The ids that the node holds, in their order.
    pub fn ids(&self, alloc: Global) -> Result<Vec<TypeId>, NoMemory>
        ensures { IfOk result (λ ids. ids.items ≡ ids_of self.now) }
    {
        match self {
            TypeNode::Basic(_) | TypeNode::Param(_) => Ok(Vec::new(alloc)),
            TypeNode::Named { name: _, args } => types_of(alloc, args.items()),
            TypeNode::Pointer(elem) | TypeNode::Slice(elem) => types_of(alloc, &[*elem]),
            TypeNode::Array { len: _, elem } => types_of(alloc, &[*elem]),
            TypeNode::Map { key, elem } => types_of(alloc, &[*key, *elem]),
            TypeNode::Func { params, results } => {
                both_types(alloc, params.items(), results.items())
            }
            TypeNode::Struct(fields) => types_of(alloc, fields.items()),
            TypeNode::Iface {
                methods,
                comparable: _,
                unions,
            } => both_types(alloc, methods.items(), unions.items()),
            TypeNode::Union(terms) => types_of(alloc, terms.items()),
        }
    }

    /// A copy of the node with these ids in the places of its own.
    pub fn with_ids(&self, alloc: Global, ids: &[TypeId]) -> Result<TypeNode, NoMemory>
        requires { length ids.now ≡ length (ids_of self.now) }
        ensures { IfOk result (λ node. node ≡ node_with self.now ids.now) }
    {
        match self {
            TypeNode::Basic(kind) => Ok(TypeNode::Basic(*kind)),
            TypeNode::Named { name, args: _ } => named_with(alloc, name, ids),
            TypeNode::Pointer(_) => Ok(TypeNode::Pointer(ids[0])),
            TypeNode::Slice(_) => Ok(TypeNode::Slice(ids[0])),
            TypeNode::Array { len, elem: _ } => Ok(TypeNode::Array {
                len: *len,
                elem: ids[0],
            }),
            TypeNode::Map { key: _, elem: _ } => Ok(TypeNode::Map {
                key: ids[0],
                elem: ids[1],
            }),
            TypeNode::Func { params, results: _ } => {
                let (params, results) = ids.split_at(params.items().len());
                func_with(alloc, params, results)
            }
            TypeNode::Struct(fields) => {
                Ok(TypeNode::Struct(parts_with(alloc, fields.items(), ids)?))
            }
            TypeNode::Iface {
                methods,
                comparable,
                unions: _,
            } => {
                let (sigs, unions) = ids.split_at(methods.items().len());
                iface_with(alloc, methods.items(), sigs, *comparable, unions)
            }
            TypeNode::Union(terms) => Ok(TypeNode::Union(parts_with(alloc, terms.items(), ids)?)),
            TypeNode::Param(k) => Ok(TypeNode::Param(*k)),
        }
    }

    /// A node of its own with the same parts.
    pub fn copy(&self, alloc: Global) -> Result<TypeNode, NoMemory>
        ensures { IfOk result (λ node. node ≡ self.now) }
    {
        let ids = self.ids(alloc)?;
        self.with_ids(alloc, ids.as_slice())
    }
}
