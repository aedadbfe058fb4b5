//! Each step of inference and each of its faults.
ghost use Rattle.std.specs.Prelude.{◌≡◌, ◌++◌, ◌∷◌, [], IfOk, OnOk};
ghost use Rattle.ui_types.specs.Table.{Table, AreIds, Grows};
ghost use Rattle.ui_infer.specs.Shown.{AreActuals, AreCores};

use crate::spelling::read;
use crate::world::example;
use std::alloc::{AllocError, Global};
use std::test::Fail;
use ui_infer::{Actual, InferFault, infer};
use ui_types::{Ids, NoMemory, TypeFault, TypeId, TypeTable};

/// Core types, formal types, arguments, explicit arguments; the fault with its number, and the
/// types.
type Case = (
    &'static str,
    &'static str,
    &'static str,
    &'static str,
    &'static str,
    u32,
    &'static str,
);

fn put_core(cores: &mut Vec<Option<TypeId>>, core: Option<TypeId>) -> Result<(), NoMemory>
    ensures { OnOk result (cores.new.items ≡ cores.old.items ++ core ∷ []) }
{
    cores.push(core)?;
    Ok(())
}

// Puts the types that a word spells after the core types: none where it is `-`.
fn put_cores(
    alloc: Global,
    table: &mut TypeTable,
    word: &str,
    cores: &mut Vec<Option<TypeId>>,
) -> Result<(), TypeFault>
    requires { AreCores table.old cores.old.items }
    ensures cores { OnOk result (AreCores table.new cores.new.items) }
    ensures grows { Grows table.old table.new }
{
    if word == "-" {
        put_core(cores, None)?;
        return Ok(());
    }
    let types = read(alloc, table, word)?;
    for t in types.as_slice() {
        put_core(cores, Some(*t))?;
    }
    Ok(())
}

fn read_cores(
    alloc: Global,
    table: &mut TypeTable,
    text: &str,
) -> Result<Vec<Option<TypeId>>, TypeFault>
    ensures cores { IfOk result (λ v. AreCores table.new v.items) }
    ensures grows { Grows table.old table.new }
{
    let mut cores = Vec::new(alloc);
    for word in text.split(' ') {
        put_cores(alloc, table, word, &mut cores)?;
    }
    Ok(cores)
}

// Puts arguments of these types after the others, numbered from 5 on.
fn put_actuals(types: &[TypeId], constant: bool, actuals: &mut Vec<Actual>) -> Result<(), NoMemory>
    ensures { (table : Table) → AreIds table types.now → AreActuals table actuals.old.items
        → OnOk result (AreActuals table actuals.new.items) }
{
    for ty in types {
        let index = 5 + (actuals.len() % 100) as u32;
        actuals.push(Actual {
            index,
            ty: *ty,
            constant,
        })?;
    }
    Ok(())
}

// Puts the arguments that a word spells after the others: untyped constants where it begins with a
// dot.
fn put_word(
    alloc: Global,
    table: &mut TypeTable,
    word: &str,
    actuals: &mut Vec<Actual>,
) -> Result<(), TypeFault>
    requires { AreActuals table.old actuals.old.items }
    ensures actuals { OnOk result (AreActuals table.new actuals.new.items) }
    ensures grows { Grows table.old table.new }
{
    let constant = word.starts_with('.');
    let types = read(alloc, table, word.trim_start_matches('.'))?;
    put_actuals(types.as_slice(), constant, actuals)?;
    Ok(())
}

fn read_actuals(alloc: Global, table: &mut TypeTable, text: &str) -> Result<Vec<Actual>, TypeFault>
    ensures actuals { IfOk result (λ v. AreActuals table.new v.items) }
    ensures grows { Grows table.old table.new }
{
    let mut actuals = Vec::new(alloc);
    for word in text.split(' ') {
        put_word(alloc, table, word, &mut actuals)?;
    }
    Ok(actuals)
}

// Whether it is what a case wants: types in order, or a fault.
fn is_wanted(
    got: Result<Ids, InferFault>,
    mark: &str,
    number: u32,
    wanted: &[TypeId],
) -> Result<bool, NoMemory> {
    match got {
        Ok(ids) => Ok(mark == "" && ids.items() == wanted),
        Err(InferFault::Mismatch { argument }) => Ok(mark == "mismatch" && argument == number),
        Err(
            InferFault::Twice {
                parameter,
                first,
                second,
            },
        ) => Ok(mark == "twice" && parameter == number && [first, second].as_slice() == wanted),
        Err(InferFault::NotInferred { parameter }) => Ok(mark == "none" && parameter == number),
        Err(InferFault::TooBig) => Ok(mark == "big"),
        Err(InferFault::TooDeep) => Ok(mark == "deep"),
        Err(InferFault::NoMemory) => Err(AllocError),
    }
}

fn is_inferred(alloc: Global, case: &Case) -> Result<bool, TypeFault> {
    let (cores, formals, actuals, explicit, mark, number, types) = *case;
    let mut table = TypeTable::new(alloc);
    let mut env = example(alloc, &mut table)?;
    let cores = read_cores(alloc, &mut table, cores)?;
    let formals = Ids::new(read(alloc, &mut table, formals)?);
    let actuals = read_actuals(alloc, &mut table, actuals)?;
    let explicit = Ids::new(read(alloc, &mut table, explicit)?);
    if cores.len() > 100 {
        return Ok(false);
    }
    if formals.items().len() != actuals.len() {
        return Ok(false);
    }
    if explicit.items().len() > cores.len() {
        return Ok(false);
    }
    let got = infer(
        alloc,
        &mut env,
        &mut table,
        cores.as_slice(),
        &formals,
        actuals.as_slice(),
        &explicit,
    );
    let wanted = read(alloc, &mut table, types)?;
    Ok(is_wanted(got, mark, number, wanted.as_slice())?)
}

const CASES: [Case; 69] = [
    // explicit arguments alone
    ("", "", "", "", "", 0, ""),
    ("-", "", "", "i", "", 0, "i"),
    ("- -", "", "", "is", "", 0, "is"),
    ("- -", "", "", "i", "none", 1, ""),
    ("-", "", "", "", "none", 0, ""),
    // typed arguments, at every kind of path
    ("-", "0", "i", "", "", 0, "i"),
    ("-", "0/", "i/", "", "", 0, "i"),
    ("-", "0*", "i*", "", "", 0, "i"),
    ("-", "0a", "ia", "", "", 0, "i"),
    ("- -", "01m", "sim", "", "", 0, "si"),
    ("- -", "01f", "sif", "", "", 0, "si"),
    ("- -", "10f", "sif", "", "", 0, "is"),
    ("-", "0g", "sg", "", "", 0, "s"),
    ("-", "0t", "it", "", "", 0, "i"),
    ("-", "0G", "iG", "", "", 0, "i"),
    ("-", "0//*", "s//*", "", "", 0, "s"),
    ("-", "0", "L", "", "", 0, "L"),
    ("-", "0", "iG", "", "", 0, "iG"),
    // the first says it, the next agrees
    ("-", "00", "i i", "", "", 0, "i"),
    ("-", "00/", "i i/", "", "", 0, "i"),
    ("-", "00m", "iim", "", "", 0, "i"),
    ("-", "00", "i s", "", "twice", 0, "is"),
    ("-", "00m", "ism", "", "twice", 0, "is"),
    ("-", "000", "i i s", "", "twice", 0, "is"),
    ("- -", "0011", "i i s b", "", "twice", 1, "sb"),
    ("- -", "1100", "s b i r", "", "twice", 0, "ir"),
    // a declared type beside a type literal, at the top only
    ("-", "0/", "L", "", "", 0, "i"),
    ("-", "0/", "sG", "", "", 0, "s"),
    ("-", "0G", "i/", "", "", 0, "i"),
    ("-", "0//", "L/", "", "mismatch", 5, ""),
    ("-", "0*", "L", "", "mismatch", 5, ""),
    // shapes
    ("-", "0/", "i*", "", "mismatch", 5, ""),
    ("-", "0a", "iA", "", "mismatch", 5, ""),
    ("-", "0t", "iu", "", "mismatch", 5, ""),
    ("-", "0g", "isf", "", "mismatch", 5, ""),
    ("-", "0G", "iD", "", "mismatch", 5, ""),
    ("-", "00/", "i i", "", "mismatch", 6, ""),
    ("-", "0/0/", "i s", "", "mismatch", 5, ""),
    ("-", "000/", "i s i", "", "mismatch", 7, ""),
    ("-", "04m", "i4m", "", "", 0, "i"),
    ("-", "04m", "ism", "", "mismatch", 5, ""),
    // not looked at: no open parameter, untyped nil
    ("-", "0/", "s", "i", "", 0, "i"),
    ("-", "i", "s", "i", "", 0, "i"),
    ("-", "0*", "N", "", "none", 0, ""),
    ("-", "00", "N i", "", "", 0, "i"),
    ("- -", "01m", "sim", "i", "twice", 0, "is"),
    // untyped constants
    ("-", "0", ".I", "", "", 0, "i"),
    ("-", "0", ".R", "", "", 0, "r"),
    ("-", "0", ".S", "", "", 0, "s"),
    ("-", "0", ".B", "", "", 0, "b"),
    ("-", "00", ".I .R", "", "", 0, "r"),
    ("-", "00", ".I .S", "", "twice", 0, "is"),
    ("-", "00", ".S .R", "", "twice", 0, "sr"),
    ("-", "00", ".I s", "", "", 0, "s"),
    ("-", "0/", ".I", "", "none", 0, ""),
    // core types: forward, back, in two rounds, of another shape
    ("1/ -", "0", "i/", "", "", 0, "i/i"),
    ("1/ -", "0", "L", "", "", 0, "Li"),
    ("- 0/", "1", "L", "", "", 0, "iL"),
    ("1/ 2* -", "0", "i*/", "", "", 0, "i*/i*i"),
    ("- 0* 1/", "2", "i*/", "", "", 0, "ii*i*/"),
    ("1/ -", "0", "i*", "", "none", 1, ""),
    // limits of the underlying types that are used
    ("-", "0*", "i*D", "", "deep", 0, ""),
    ("-", "0*", "i*W", "", "big", 0, ""),
    ("-", "0*", "iW", "", "mismatch", 5, ""),
    ("1* -", "01/", "i*D i", "", "deep", 0, ""),
    ("- -", "0*1*", "i*D i*W", "", "deep", 0, ""),
    ("- -", "0*1*", "i*W i*D", "", "big", 0, ""),
    // a mismatch is told before two types, and these before none
    ("- -", "000/", "i s i", "", "mismatch", 7, ""),
    ("- -", "11", "i s", "", "twice", 1, "is"),
];

#[test]
fn each_case(rt: HostRuntime) -> Result<(), Fail> {
    for (k, case) in CASES.iter().enumerate() {
        let holds = is_inferred(rt.alloc(), case)?;
        assert!(rt; holds, "case {k}");
    }
    Ok(())
}
