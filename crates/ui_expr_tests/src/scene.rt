//! The declarations and the scope that the rows speak of.
ghost use Rattle.std.specs.Prelude.{All, IfOk};
ghost use Rattle.ui_types.specs.Table.{Table, IsId, Grows};
ghost use Rattle.ui_types.specs.Decls.{AreDecls, IsFace};
ghost use Rattle.ui_scopes.specs.Scopes.{IsMeaning, IsScope};
ghost use Rattle.ui_expr_tests.specs.Meanings.{IsLevel};

use std::alloc::Global;
use ui_scopes::{Bind, Level, Levels, Meaning, Scope};
use ui_types::{
    Basic, Decl, Decls, Face, Ids, MethodFaces, Name, NoMemory, Pos, TParams, Text, TypeFault,
    TypeId, TypeNode, TypeTable, Value,
};

/// A value of a row.
#[derive(Clone, Copy)]
pub enum Sample {
    Whole(i128),
    Str(&'static str),
    Truth(bool),
}

/// The type of a declaration.
#[derive(Clone, Copy)]
pub enum Of {
    Kind(Basic),
    /// A type that the package declares.
    Named(&'static str),
    /// `[]int`
    List,
}

/// Declared constants. For each whole kind the least and the greatest value; the last three only a
/// file made by hand has.
const CONSTANTS: &[(&str, &str, Of, Sample)] = &[
    (
        "p",
        "int_lo",
        Of::Kind(Basic::Int),
        Sample::Whole(-(1 << 63)),
    ),
    (
        "p",
        "int_hi",
        Of::Kind(Basic::Int),
        Sample::Whole((1 << 63) - 1),
    ),
    ("p", "int8_lo", Of::Kind(Basic::Int8), Sample::Whole(-128)),
    ("p", "int8_hi", Of::Kind(Basic::Int8), Sample::Whole(127)),
    ("p", "int8_1", Of::Kind(Basic::Int8), Sample::Whole(1)),
    (
        "p",
        "int16_lo",
        Of::Kind(Basic::Int16),
        Sample::Whole(-32768),
    ),
    (
        "p",
        "int16_hi",
        Of::Kind(Basic::Int16),
        Sample::Whole(32767),
    ),
    (
        "p",
        "int32_lo",
        Of::Kind(Basic::Int32),
        Sample::Whole(-(1 << 31)),
    ),
    (
        "p",
        "int32_hi",
        Of::Kind(Basic::Int32),
        Sample::Whole((1 << 31) - 1),
    ),
    (
        "p",
        "int64_lo",
        Of::Kind(Basic::Int64),
        Sample::Whole(-(1 << 63)),
    ),
    (
        "p",
        "int64_hi",
        Of::Kind(Basic::Int64),
        Sample::Whole((1 << 63) - 1),
    ),
    ("p", "uint_lo", Of::Kind(Basic::Uint), Sample::Whole(0)),
    (
        "p",
        "uint_hi",
        Of::Kind(Basic::Uint),
        Sample::Whole((1 << 64) - 1),
    ),
    ("p", "uint8_lo", Of::Kind(Basic::Uint8), Sample::Whole(0)),
    ("p", "uint8_hi", Of::Kind(Basic::Uint8), Sample::Whole(255)),
    ("p", "uint8_5", Of::Kind(Basic::Uint8), Sample::Whole(5)),
    ("p", "uint16_lo", Of::Kind(Basic::Uint16), Sample::Whole(0)),
    (
        "p",
        "uint16_hi",
        Of::Kind(Basic::Uint16),
        Sample::Whole(65535),
    ),
    ("p", "uint32_lo", Of::Kind(Basic::Uint32), Sample::Whole(0)),
    (
        "p",
        "uint32_hi",
        Of::Kind(Basic::Uint32),
        Sample::Whole((1 << 32) - 1),
    ),
    ("p", "uint64_lo", Of::Kind(Basic::Uint64), Sample::Whole(0)),
    (
        "p",
        "uint64_hi",
        Of::Kind(Basic::Uint64),
        Sample::Whole((1 << 64) - 1),
    ),
    ("p", "word", Of::Kind(Basic::String), Sample::Str("go")),
    ("p", "yes", Of::Kind(Basic::Bool), Sample::Truth(true)),
    ("p", "seven", Of::Kind(Basic::UntypedInt), Sample::Whole(7)),
    (
        "p",
        "letter",
        Of::Kind(Basic::UntypedRune),
        Sample::Whole(97),
    ),
    ("p", "max", Of::Kind(Basic::UntypedInt), Sample::Whole(9)),
    ("p", "warm", Of::Named("Celsius"), Sample::Whole(20)),
    ("p", "hot", Of::Named("Celsius"), Sample::Whole(127)),
    ("p", "tag", Of::Named("Label"), Sample::Str("x")),
    ("p", "on", Of::Named("Flag"), Sample::Truth(true)),
    (
        "x/lib",
        "One",
        Of::Kind(Basic::UntypedInt),
        Sample::Whole(1),
    ),
    ("x/lib", "hidden", Of::Kind(Basic::Int), Sample::Whole(2)),
    ("p", "too_wide", Of::Kind(Basic::Int8), Sample::Whole(300)),
    ("p", "list", Of::List, Sample::Whole(1)),
    ("p", "no_type", Of::Named("Missing"), Sample::Whole(1)),
];

/// Declared types over basic kinds.
const TYPES: &[(&str, Basic)] = &[
    ("Celsius", Basic::Int8),
    ("Label", Basic::String),
    ("Flag", Basic::Bool),
];

/// Own names beside these; the last one isn't declared.
const OTHERS: &[&str] = &["Celsius", "variable", "Alias", "function", "undeclared"];

/// Names that the universe has, or would have in Go.
const UNIVERSE: &[&str] = &[
    "true",
    "false",
    "iota",
    "nil",
    "int",
    "string",
    "float64",
    "complex128",
    "len",
    "max",
    "print",
    "any",
    "recover",
];

// The name in the package.
fn name(alloc: Global, path: &str, text: &str) -> Result<Name, NoMemory> {
    let path = Text::from_slice(alloc, path.as_bytes())?;
    let name = Text::from_slice(alloc, text.as_bytes())?;
    Ok(Name { path, name })
}

fn value(alloc: Global, of: Sample) -> Result<Value, NoMemory> {
    match of {
        Sample::Whole(n) => Ok(Value::Whole(n)),
        Sample::Str(text) => Ok(Value::Str(Text::from_slice(alloc, text.as_bytes())?)),
        Sample::Truth(b) => Ok(Value::Truth(b)),
    }
}

fn type_of(alloc: Global, table: &mut TypeTable, of: Of) -> Result<TypeId, TypeFault>
    ensures made { IfOk result (IsId table.new) }
    ensures grows { Grows table.old table.new }
{
    match of {
        Of::Kind(kind) => table.intern(alloc, TypeNode::Basic(kind)),
        Of::Named(text) => {
            let name = name(alloc, "p", text)?;
            let args = Ids::new(Vec::new(alloc));
            table.intern(alloc, TypeNode::Named { name, args })
        }
        Of::List => {
            let int = table.intern(alloc, TypeNode::Basic(Basic::Int))?;
            table.intern(alloc, TypeNode::Slice(int))
        }
    }
}

// Adds a declaration.
fn declare(
    alloc: Global,
    decls: &mut Vec<(Name, Decl)>,
    path: &str,
    text: &str,
    face: Face,
) -> Result<(), NoMemory>
    ensures { (table : Table) → AreDecls table decls.old.items → IsFace table face →
        AreDecls table decls.new.items }
{
    let name = name(alloc, path, text)?;
    let pos = Pos {
        file: Text::new(Vec::new(alloc)),
        line: 1,
        col: 1,
    };
    decls.push((name, Decl { pos, face }))?;
    Ok(())
}

fn constants(
    alloc: Global,
    table: &mut TypeTable,
    decls: &mut Vec<(Name, Decl)>,
) -> Result<(), TypeFault>
    requires { AreDecls table.old decls.old.items }
    ensures made { IfOk result (λ _. AreDecls table.new decls.new.items) }
    ensures grows { Grows table.old table.new }
{
    for (path, text, of, sample) in CONSTANTS {
        let ty = type_of(alloc, table, *of)?;
        let value = value(alloc, *sample)?;
        declare(alloc, decls, path, text, Face::Const { ty, value })?;
    }
    Ok(())
}

fn types(
    alloc: Global,
    table: &mut TypeTable,
    decls: &mut Vec<(Name, Decl)>,
) -> Result<(), TypeFault>
    requires { AreDecls table.old decls.old.items }
    ensures made { IfOk result (λ _. AreDecls table.new decls.new.items) }
    ensures grows { Grows table.old table.new }
{
    for (text, kind) in TYPES {
        let under = table.intern(alloc, TypeNode::Basic(*kind))?;
        let face = Face::Defined {
            params: TParams::new(Vec::new(alloc)),
            under,
            methods: MethodFaces::new(Vec::new(alloc)),
        };
        declare(alloc, decls, "p", text, face)?;
    }
    Ok(())
}

/// All declarations.
pub fn decls(alloc: Global, table: &mut TypeTable) -> Result<Decls, TypeFault>
    ensures made { IfOk result (AreDecls table.new) }
    ensures grows { Grows table.old table.new }
{
    let mut decls = Vec::new(alloc);
    constants(alloc, table, &mut decls)?;
    types(alloc, table, &mut decls)?;
    let ty = table.intern(alloc, TypeNode::Basic(Basic::Int))?;
    declare(alloc, &mut decls, "p", "variable", Face::Var { ty })?;
    declare(alloc, &mut decls, "p", "Alias", Face::Alias { ty })?;
    let face = Face::Func {
        params: TParams::new(Vec::new(alloc)),
        sig: ty,
    };
    declare(alloc, &mut decls, "p", "function", face)?;
    Ok(Decls::new(decls))
}

// Gives the name its meaning in the level.
fn put(
    alloc: Global,
    table: &TypeTable,
    level: &mut Level,
    text: &str,
    meaning: Meaning,
) -> Result<(), NoMemory>
    requires meaning { IsMeaning table.now meaning }
    requires level { IsLevel table.now level.old }
    ensures { IsLevel table.now level.new }
{
    let _ = table;
    let name = Text::from_slice(alloc, text.as_bytes())?;
    level.put(Bind { name, meaning })
}

fn universe(alloc: Global, table: &TypeTable) -> Result<Level, NoMemory>
    ensures { IfOk result (IsLevel table.now) }
{
    let mut level = Level::new(alloc);
    for text in UNIVERSE {
        let word = Text::from_slice(alloc, text.as_bytes())?;
        put(alloc, table, &mut level, text, Meaning::Predeclared(word))?;
    }
    Ok(level)
}

fn imports(alloc: Global, table: &TypeTable) -> Result<Level, NoMemory>
    ensures { IfOk result (IsLevel table.now) }
{
    let mut level = Level::new(alloc);
    let path = Text::from_slice(alloc, b"x/lib")?;
    put(alloc, table, &mut level, "lib", Meaning::Package(path))?;
    Ok(level)
}

fn put_own(alloc: Global, table: &TypeTable, level: &mut Level, text: &str) -> Result<(), NoMemory>
    requires { IsLevel table.now level.old }
    ensures { IsLevel table.now level.new }
{
    let object = name(alloc, "p", text)?;
    put(alloc, table, level, text, Meaning::Object(object))
}

fn put_constants(alloc: Global, table: &TypeTable, level: &mut Level) -> Result<(), NoMemory>
    requires { IsLevel table.now level.old }
    ensures { IfOk result (λ _. IsLevel table.now level.new) }
{
    for (path, text, _, _) in CONSTANTS {
        if *path == "p" {
            put_own(alloc, table, level, text)?;
        }
    }
    Ok(())
}

fn own_names(alloc: Global, table: &TypeTable) -> Result<Level, NoMemory>
    ensures { IfOk result (IsLevel table.now) }
{
    let mut level = Level::new(alloc);
    put_constants(alloc, table, &mut level)?;
    for text in OTHERS {
        put_own(alloc, table, &mut level, text)?;
    }
    Ok(level)
}

// The names of a block: `iota` where it is that of a specification, a parameter, a local, and a
// constant that hides an own one.
fn block_names(
    alloc: Global,
    table: &TypeTable,
    untyped: TypeId,
    ty: TypeId,
) -> Result<Level, NoMemory>
    requires untyped { IsId table.now untyped }
    requires ty { IsId table.now ty }
    ensures { IfOk result (IsLevel table.now) }
{
    let mut level = Level::new(alloc);
    let three = Meaning::Const {
        ty: untyped,
        value: Value::Whole(3),
    };
    put(alloc, table, &mut level, "iota", three)?;
    put(alloc, table, &mut level, "param", Meaning::Param(0))?;
    let local = Meaning::Local { number: 0, ty };
    put(alloc, table, &mut level, "local", local)?;
    let four = Meaning::Const {
        ty,
        value: Value::Whole(4),
    };
    put(alloc, table, &mut level, "seven", four)?;
    Ok(level)
}

fn block(alloc: Global, table: &mut TypeTable) -> Result<Level, TypeFault>
    ensures made { IfOk result (IsLevel table.new) }
    ensures grows { Grows table.old table.new }
{
    let untyped = table.intern(alloc, TypeNode::Basic(Basic::UntypedInt))?;
    let ty = table.intern(alloc, TypeNode::Basic(Basic::Int))?;
    Ok(block_names(alloc, table, untyped, ty)?)
}

fn levels(alloc: Global, table: &TypeTable, block: Level) -> Result<Levels, NoMemory>
    requires { IsLevel table.now block }
    ensures { IfOk result (All (IsLevel table.now)) }
{
    let universe = universe(alloc, table)?;
    let imports = imports(alloc, table)?;
    let own_names = own_names(alloc, table)?;
    let mut levels = Vec::new(alloc);
    levels.push(universe)?;
    levels.push(imports)?;
    levels.push(own_names)?;
    levels.push(block)?;
    Ok(Levels::new(levels))
}

fn maybe_block(alloc: Global, table: &mut TypeTable, within: bool) -> Result<Level, TypeFault>
    ensures made { IfOk result (IsLevel table.new) }
    ensures grows { Grows table.old table.new }
{
    if within {
        return block(alloc, table);
    }
    Ok(Level::new(alloc))
}

/// The scope of a file; within, that of a block.
pub fn scope(alloc: Global, table: &mut TypeTable, within: bool) -> Result<Scope, TypeFault>
    ensures made { IfOk result (IsScope table.new) }
    ensures grows { Grows table.old table.new }
{
    let block = maybe_block(alloc, table, within)?;
    let levels = levels(alloc, table, block)?;
    let path = Text::from_slice(alloc, b"p")?;
    let file = Text::from_slice(alloc, b"src/p/a.go")?;
    let bounds = Ids::new(Vec::new(alloc));
    Ok(Scope {
        levels,
        bounds,
        path,
        file,
    })
}
