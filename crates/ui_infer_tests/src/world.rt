//! Declared types.
ghost use Rattle.std.specs.Prelude.{All, IfOk, OnOk};
ghost use Rattle.ui_types.specs.Table.{Table, IsId, Grows};
ghost use Rattle.ui_types.specs.Decls.{AreDecls};

use crate::spelling::{deep, large, name, read_one};
use std::alloc::Global;
use ui_types::{
    Decl, Decls, Face, ListEnv, MethodFaces, Name, NoMemory, Pos, TParam, TParams, Text, TypeFault,
    TypeId, TypeTable,
};

fn no_params(alloc: Global) -> TParams
    ensures { (table : Table) → All (λ p. IsId table p.bound) result }
{
    TParams::new(Vec::new(alloc))
}

fn one_param(alloc: Global, bound: TypeId) -> Result<TParams, NoMemory>
    ensures { (table : Table) → IsId table bound → IfOk result (All (λ p. IsId table p.bound)) }
{
    let mut params = Vec::new(alloc);
    let name = Text::from_slice(alloc, b"P")?;
    params.push(TParam { name, bound })?;
    Ok(TParams::new(params))
}

// Puts `type NAME[P any] UNDER` at the end, or without type parameters.
fn declare(
    alloc: Global,
    decls: &mut Vec<(Name, Decl)>,
    text: &[u8],
    params: TParams,
    under: TypeId,
) -> Result<(), NoMemory>
    ensures { (table : Table) → AreDecls table decls.old.items
        → All (λ p. IsId table p.bound) params
        → IsId table under → OnOk result (AreDecls table decls.new.items) }
{
    let name = name(alloc, text)?;
    let pos = Pos {
        file: Text::new(Vec::new(alloc)),
        line: 1,
        col: 1,
    };
    let face = Face::Defined {
        params,
        under,
        methods: MethodFaces::new(Vec::new(alloc)),
    };
    decls.push((name, Decl { pos, face }))?;
    Ok(())
}

/// The underlying types of the declared types.
#[derive(Clone, Copy)]
struct Unders {
    int: TypeId,
    ints: TypeId,
    params: TypeId,
    deep: TypeId,
    large: TypeId,
}

fn under_types(alloc: Global, table: &mut TypeTable) -> Result<Unders, TypeFault>
    ensures int { IfOk result (λ u. IsId table.new u.int) }
    ensures ints { IfOk result (λ u. IsId table.new u.ints) }
    ensures params { IfOk result (λ u. IsId table.new u.params) }
    ensures deep { IfOk result (λ u. IsId table.new u.deep) }
    ensures large { IfOk result (λ u. IsId table.new u.large) }
    ensures grows { Grows table.old table.new }
{
    let int = read_one(alloc, table, "i")?;
    let ints = read_one(alloc, table, "i/")?;
    let params = read_one(alloc, table, "0/")?;
    let deep = deep(alloc, table)?;
    let large = large(alloc, table)?;
    Ok(Unders {
        int,
        ints,
        params,
        deep,
        large,
    })
}

fn all_declared(alloc: Global, u: Unders) -> Result<Decls, NoMemory>
    ensures { (table : Table) → IsId table u.int → IsId table u.ints → IsId table u.params
        → IsId table u.deep → IsId table u.large → IfOk result (AreDecls table) }
{
    let mut decls = Vec::new(alloc);
    declare(alloc, &mut decls, b"L", no_params(alloc), u.ints)?;
    declare(alloc, &mut decls, b"G", one_param(alloc, u.int)?, u.params)?;
    declare(alloc, &mut decls, b"D", one_param(alloc, u.int)?, u.deep)?;
    declare(alloc, &mut decls, b"W", one_param(alloc, u.int)?, u.large)?;
    Ok(Decls::new(decls))
}

/// `type L []int`, `type G[P any] []P`, `type D[P any] ***..P` and `type W[P any]`, a map of maps.
pub fn example(alloc: Global, table: &mut TypeTable) -> Result<ListEnv, TypeFault>
    ensures made { IfOk result (λ env. AreDecls table.new env.decls) }
    ensures grows { Grows table.old table.new }
{
    let unders = under_types(alloc, table)?;
    let decls = all_declared(alloc, unders)?;
    Ok(ListEnv::new(Vec::new(alloc), decls))
}
