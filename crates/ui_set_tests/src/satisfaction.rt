//! Satisfying constraints, being comparable, and core types.
ghost use Rattle.std.specs.Prelude.{◌≡◌, [], ◌∷◌, All, IfOk, OnOk};
ghost use Rattle.ui_types.specs.Table.{Table, IsId, AreIds, Grows};
ghost use Rattle.ui_types.specs.Decls.{AreDecls};

use crate::samples::{declare, methods, no_methods, no_params, signature};
use crate::spelling::{name, spelled};
use std::alloc::Global;
use std::test::Fail;
use ui_satisfy::{comparable, satisfies};
use ui_sets::{SetFault, Unfit};
use ui_terms::core_type;
use ui_types::{
    Decl, Decls, Ids, ListEnv, MethodFaces, Name, NoMemory, TParam, TParams, TypeFault, TypeId,
    TypeTable,
};

// A declared type: its name, whether it has a type parameter, whether it has the methods V and,
// with a pointer receiver, P, and what it is declared as.
type Row = (&'static str, bool, bool, &'static str);

const DECLARED: [Row; 16] = [
    ("A", false, false, "i"),
    ("B", false, false, "i["),
    ("C", false, false, "c)"),
    ("G", true, false, "0a"),
    ("H", true, false, "0*hi{"),
    ("I", false, false, "v)"),
    ("J", false, false, "Jo)"),
    ("K", true, false, "0aa"),
    ("L", false, false, "L*i{"),
    ("N", false, false, "Ni[{"),
    ("Q", false, true, "T*"),
    ("R", false, false, "Ri{"),
    ("S", false, false, "i~s~|)"),
    ("T", false, true, "ii{"),
    ("W", true, false, "00{wi{"),
    ("X", true, false, "0aaaa"),
];

// The constraints of the type parameters 0 to 8; 9 has none.
const BOUNDS: [&str; 9] = [
    "i+|)",
    "i~|)",
    "i+s+|)",
    "i~s~|i+|)",
    "i[+i+|i+|)",
    "c)",
    "v)",
    "7g+i[+|)",
    "7k+|7g+|)",
];

fn one_param(alloc: Global, bound: TypeId) -> Result<TParams, NoMemory>
    ensures { (table : Table) → IsId table bound
        → IfOk result (All (λ p. IsId table p.bound)) }
{
    let name = name(alloc, "", "P")?;
    let mut params = Vec::new(alloc);
    params.push(TParam {
        name: name.name,
        bound,
    })?;
    Ok(TParams::new(params))
}

fn params(alloc: Global, is_generic: bool, bound: TypeId) -> Result<TParams, NoMemory>
    ensures { (table : Table) → IsId table bound
        → IfOk result (All (λ p. IsId table p.bound)) }
{
    if is_generic {
        return one_param(alloc, bound);
    }
    Ok(no_params(alloc))
}

fn kept_methods(alloc: Global, has_methods: bool, sig: TypeId) -> Result<MethodFaces, NoMemory>
    ensures { (table : Table) → IsId table sig
        → IfOk result (All (λ m. IsId table m.sig)) }
{
    if has_methods {
        return methods(alloc, sig);
    }
    Ok(no_methods(alloc))
}

#[tactic(auto, using(crate::proofs::DeclSteps::declaring))]
fn declare_row(
    alloc: Global,
    table: &mut TypeTable,
    decls: &mut Vec<(Name, Decl)>,
    row: Row,
) -> Result<(), Fail>
    requires { AreDecls table.old decls.old.items }
    ensures made { OnOk result (AreDecls table.new decls.new.items) }
    ensures grows { Grows table.old table.new }
{
    let (text, is_generic, has_methods, under) = row;
    let under = spelled(alloc, table, under)?;
    let bound = spelled(alloc, table, ")")?;
    let sig = signature(alloc, table)?;
    let params = params(alloc, is_generic, bound)?;
    let methods = kept_methods(alloc, has_methods, sig)?;
    declare(alloc, decls, text, params, under, methods)?;
    Ok(())
}

#[tactic(auto, using(crate::proofs::DeclSteps::declaring))]
fn all_declared(alloc: Global, table: &mut TypeTable) -> Result<Decls, Fail>
    ensures made { IfOk result (AreDecls table.new) }
    ensures grows { Grows table.old table.new }
{
    let mut decls = Vec::new(alloc);
    for row in DECLARED.iter() {
        declare_row(alloc, table, &mut decls, *row)?;
    }
    Ok(Decls::new(decls))
}

fn all_bounds(alloc: Global, table: &mut TypeTable) -> Result<Ids, Fail>
    ensures made { IfOk result (AreIds table.new) }
    ensures grows { Grows table.old table.new }
{
    let mut bounds = Vec::new(alloc);
    for text in BOUNDS.iter() {
        let bound = spelled(alloc, table, text)?;
        bounds.push(bound)?;
    }
    Ok(Ids::new(bounds))
}

// A fault in short.
fn shown(fault: &SetFault) -> &'static str {
    match fault {
        SetFault::Unfit(Unfit::NoMethod { name: _ }) => "lacks V",
        SetFault::Unfit(Unfit::NotInUnion { union: 0 }) => "outside 0",
        SetFault::Unfit(Unfit::NotInUnion { union: _ }) => "outside 1",
        SetFault::Unfit(Unfit::NotComparable) => "not comparable",
        SetFault::TooBig => "too big",
        SetFault::TooDeep => "too deep",
        SetFault::NoMemory => "no memory",
    }
}

fn satisfied(alloc: Global, t: &str, bound: &str) -> Result<&'static str, Fail> {
    let mut table = TypeTable::new(alloc);
    let decls = all_declared(alloc, &mut table)?;
    let bounds = all_bounds(alloc, &mut table)?;
    let t = spelled(alloc, &mut table, t)?;
    let bound = spelled(alloc, &mut table, bound)?;
    let mut env = ListEnv::new(Vec::new(alloc), decls);
    match satisfies(alloc, &mut env, &mut table, &bounds, t, bound) {
        Ok(()) => Ok("fits"),
        Err(fault) => Ok(shown(&fault)),
    }
}

// Unions: equal to a term, or to the underlying type of a term `~`; in each of them. What is no
// interface asks for nothing.
#[test]
fn unions(rt: HostRuntime) -> Result<(), Fail> {
    for (t, bound, want) in [
        ("i", "i+s+|)", "fits"),
        ("s", "i+s+|)", "fits"),
        ("b", "i+s+|)", "outside 0"),
        ("A", "i+s+|)", "outside 0"),
        ("A", "i~s~|)", "fits"),
        ("B", "i[~|)", "fits"),
        ("B", "i[+|)", "outside 0"),
        ("i", "A~|)", "fits"),
        ("A", "A+|)", "fits"),
        ("i", "A+|)", "outside 0"),
        ("i", "S", "fits"),
        ("A", "S", "fits"),
        ("b", "S", "outside 0"),
        ("i", "i+|s+|)", "outside 1"),
        ("A", "i~|A+|)", "fits"),
        ("A", "i~|i+|)", "outside 1"),
        ("b", "i~|i+|)", "outside 0"),
        ("b", "i", "fits"),
        ("b", "ii{", "fits"),
        ("b", "|)", "outside 0"),
    ] {
        let told = satisfied(rt.alloc(), t, bound)?;
        assert_eq!(rt; told, want, "{t} {bound}");
    }
    Ok(())
}

// A type parameter is in a union where all terms of one of its own unions are, a term `~` only by a
// `~`; one without unions is in none.
#[test]
fn parameters(rt: HostRuntime) -> Result<(), Fail> {
    for (t, bound, want) in [
        ("0", "i+s+|)", "fits"),
        ("0", "i~|)", "fits"),
        ("0", "A~|)", "fits"),
        ("1", "i+|)", "outside 0"),
        ("1", "i~|)", "fits"),
        ("2", "i+|)", "outside 0"),
        ("2", "i~s~|)", "fits"),
        ("2", "i+s+b+|)", "fits"),
        ("3", "i+|)", "fits"),
        ("3", "i~|)", "fits"),
        ("3", "s~|)", "outside 0"),
        ("3", "s~i~|)", "fits"),
        ("9", "i~|)", "outside 0"),
        ("9", ")", "fits"),
        ("6", "i~|)", "outside 0"),
        ("6", "v)", "fits"),
        ("6*", "v)", "lacks V"),
        ("9", "v)", "lacks V"),
    ] {
        let told = satisfied(rt.alloc(), t, bound)?;
        assert_eq!(rt; told, want, "{t} {bound}");
    }
    Ok(())
}

// The first that is lacked is told: methods, then `comparable`, then unions. An interface may hold
// itself.
#[test]
fn first_lack(rt: HostRuntime) -> Result<(), Fail> {
    for (t, bound, want) in [
        ("T", "v)", "fits"),
        ("T*", "v)", "fits"),
        ("A", "v)", "lacks V"),
        ("Q", "v)", "lacks V"),
        ("I", "v)", "fits"),
        ("I*", "v)", "lacks V"),
        ("T", "J", "lacks V"),
        ("I", "J", "lacks V"),
        ("J", "J", "fits"),
        ("J", "v)", "lacks V"),
        ("A", "vci+|)", "lacks V"),
        ("B", "vc)", "lacks V"),
        ("B", "ci+|)", "not comparable"),
        ("A", "ci+|)", "outside 0"),
        ("T", "vcT+|)", "fits"),
        ("T", "vci+|)", "outside 0"),
    ] {
        let told = satisfied(rt.alloc(), t, bound)?;
        assert_eq!(rt; told, want, "{t} {bound}");
    }
    Ok(())
}

// Slices, maps and functions aren't comparable, nor what holds one; interfaces are; a type that
// holds itself is by the rest of it. A type parameter is by `comparable`, or by one of its unions:
// the type parameter 8 isn't, though its second union is met while the first is looked at.
#[test]
fn comparables(rt: HostRuntime) -> Result<(), Fail> {
    for (t, want) in [
        ("i", "fits"),
        ("i*", "fits"),
        ("i[*", "fits"),
        ("i[", "not comparable"),
        ("B", "not comparable"),
        ("iim", "not comparable"),
        ("i[a", "not comparable"),
        ("ia", "fits"),
        ("ii[{", "not comparable"),
        ("T", "fits"),
        ("E", "fits"),
        ("I", "fits"),
        ("c)", "fits"),
        ("L", "fits"),
        ("R", "fits"),
        ("N", "not comparable"),
        ("Na", "not comparable"),
        ("0", "fits"),
        ("4", "fits"),
        ("5", "fits"),
        ("7", "not comparable"),
        ("8", "not comparable"),
        ("9", "not comparable"),
        ("9*", "fits"),
        ("5a", "fits"),
        ("9a", "not comparable"),
        ("5g", "fits"),
        ("Bg", "not comparable"),
    ] {
        let told = satisfied(rt.alloc(), t, "c)")?;
        assert_eq!(rt; told, want, "{t}");
    }
    Ok(())
}

// The first needed type that is past a limit is told: more than 65,536 nodes, else deeper than 256;
// and each thing that is lacked before it.
#[test]
fn limits(rt: HostRuntime) -> Result<(), Fail> {
    for (t, bound, want) in [
        ("i#g", "c)", "fits"),
        ("i#k", "c)", "too big"),
        ("i%g", "c)", "fits"),
        ("i%k", "c)", "too deep"),
        ("ih", "c)", "too deep"),
        ("iw", "c)", "too big"),
        ("i[i$w{", "c)", "not comparable"),
        ("i$wi[{", "c)", "too big"),
        ("i#k", "i+|)", "too big"),
        ("i#k", ")", "fits"),
        ("i", "i$w~|)", "too big"),
        ("i", "i$w+|)", "outside 0"),
        ("i", "i+i$w~|)", "too big"),
        ("i", "i&x~i$w~|)", "too deep"),
        ("i", "i$w~i&x~|)", "too big"),
        ("A", "vi$w~|)", "lacks V"),
        ("i", "s+|i$w~|)", "outside 0"),
        ("i[", "ci$w~|)", "not comparable"),
    ] {
        let told = satisfied(rt.alloc(), t, bound)?;
        assert_eq!(rt; told, want, "{t} {bound}");
    }
    Ok(())
}

fn compared(alloc: Global, t: &str) -> Result<&'static str, Fail> {
    let mut table = TypeTable::new(alloc);
    let decls = all_declared(alloc, &mut table)?;
    let bounds = all_bounds(alloc, &mut table)?;
    let t = spelled(alloc, &mut table, t)?;
    let mut env = ListEnv::new(Vec::new(alloc), decls);
    match comparable(alloc, &mut env, &mut table, &bounds, t) {
        Ok(true) => Ok("comparable"),
        Ok(false) => Ok("not"),
        Err(fault) => Ok(shown(&fault)),
    }
}

// The same asked alone.
#[test]
fn asked_alone(rt: HostRuntime) -> Result<(), Fail> {
    for (t, want) in [
        ("R", "comparable"),
        ("N", "not"),
        ("8", "not"),
        ("4", "comparable"),
        ("ih", "too deep"),
        ("iw", "too big"),
    ] {
        let told = compared(rt.alloc(), t)?;
        assert_eq!(rt; told, want, "{t}");
    }
    Ok(())
}

fn same_core(alloc: Global, t: &str, want: &str) -> Result<&'static str, Fail> {
    let mut table = TypeTable::new(alloc);
    let decls = all_declared(alloc, &mut table)?;
    let bounds = all_bounds(alloc, &mut table)?;
    let t = spelled(alloc, &mut table, t)?;
    let want = spelled(alloc, &mut table, want)?;
    let mut env = ListEnv::new(Vec::new(alloc), decls);
    match core_type(alloc, &mut env, &mut table, &bounds, t) {
        Ok(Some(found)) => Ok(if found == want { "that" } else { "another" }),
        Ok(None) => Ok("none"),
        Err(fault) => Ok(shown(&fault)),
    }
}

// The underlying type, and of a type parameter the one underlying type of all terms of the first of
// its unions that has one.
#[test]
fn core_types(rt: HostRuntime) -> Result<(), Fail> {
    for (t, core, want) in [
        ("i", "i", "that"),
        ("A", "i", "that"),
        ("A", "A", "another"),
        ("B", "i[", "that"),
        ("T", "ii{", "that"),
        ("I", "v)", "that"),
        ("0", "i", "that"),
        ("1", "i", "that"),
        ("2", "i", "none"),
        ("3", "i", "that"),
        ("4", "i", "that"),
        ("5", "i", "none"),
        ("6", "i", "none"),
        ("7", "i", "none"),
        ("9", "i", "none"),
        ("i#k", "i", "too big"),
        ("i%k", "i", "too deep"),
    ] {
        let told = same_core(rt.alloc(), t, core)?;
        assert_eq!(rt; told, want, "{t} {core}");
    }
    Ok(())
}
