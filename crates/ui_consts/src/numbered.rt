// A package whose strings and files have numbers.
ghost use Rattle.std.specs.Prelude.{◌≡◌, ◌^◌, ◌<◌, ◌≤◌, [], ◌∷◌, ◌++◌, length, map, nat_eq};
ghost use Rattle.std.specs.Prelude.{slice_index_or, IfOk, OnOk};
ghost use Rattle.std.specs.List.{AllByRecursion, IsDistinct};
ghost use Rattle.std.specs.FinMap.{entries};
ghost use Rattle.ui_exports.specs.Constants.{declaration};
ghost use Rattle.ui_exports.specs.Linked as linked_of;
ghost use Rattle.ui_consts.specs.Numbering.{Covers, Grown, GrownFiles, IsBelowOf, IsEntryOf};
ghost use Rattle.ui_consts.specs.Numbering.{IsMapOf, IsPlace, IsValueOf, Numbers, NumbersBelow};
ghost use Rattle.ui_consts.specs.Numbering.{NumbersConstants, entry};
ghost use Rattle.ui_consts.specs.Record.{below_uses, entry_uses, value_uses};
ghost use Rattle.ui_consts.specs.Size.{HasNames, IsBelow, IsSmall, IsSmallEntry, IsSmallExport};

use indexmap::IndexSet;
use std::alloc::Global;
use ui_base::{Items, Text};
use ui_eobj::{BelowEl, PrivateRootEl, ValueEl, magnitude_bytes};
use ui_exports::{Below, Constant, Linked, NoMemory, Package};

/// A constant by the places of its name and its file.
#[derive(Drop)]
pub(crate) struct Entry {
    pub name: u32,
    pub base: u32,
    pub line: u32,
    pub column: u32,
    pub value: ValueEl,
}

/// What the elements of a file are made of. Strings and PosBases stand in the order of their first
/// use.
#[derive(Drop)]
pub(crate) struct Numbered {
    pub strings: Vec<Text>,
    pub path: u32,
    pub name: u32,
    pub bases: Vec<u32>,
    pub entries: Vec<Entry>,
    pub below: PrivateRootEl,
}

// The place of a string.
fn place_of(alloc: Global, strings: &mut IndexSet<Text>, text: &[u8]) -> Result<u32, NoMemory>
    requires room { length strings.old.keys < 2 ^ 31 }
    requires short { length text.now ≤ 4096 }
    ensures place { IfOk result (λ place. IsPlace text.now place strings.new.keys) }
    ensures texts { OnOk result (Grown 1 strings.old.keys strings.new.keys) }
    ensures used { IfOk result
        (λ place. Covers (place ∷ []) (length strings.old.keys) (length strings.new.keys)) }
{
    let text = Text::from_slice(alloc, text)?;
    let (place, _new) = strings.insert_full(text)?;
    Ok(place as u32)
}

// A value, whose magnitude has a place where 64 signed bits don't hold it.
fn value_of(alloc: Global, strings: &mut IndexSet<Text>, value: u128) -> Result<ValueEl, NoMemory>
    requires room { length strings.old.keys < 2 ^ 31 }
    requires small { value < 2 ^ 127 }
    ensures value { IfOk result (λ v. IsValueOf strings.new.keys v value) }
    ensures texts { OnOk result (Grown 1 strings.old.keys strings.new.keys) }
    ensures used { IfOk result
        (λ v. Covers (value_uses v) (length strings.old.keys) (length strings.new.keys)) }
{
    if value < 1 << 63 {
        return Ok(ValueEl::Int64(value as i64));
    }
    let bytes = magnitude_bytes(alloc, value)?;
    let magnitude = place_of(alloc, strings, &bytes)?;
    Ok(ValueEl::Big {
        magnitude,
        negative: false,
    })
}

// The place of a file among the PosBases.
fn base_of(
    alloc: Global,
    strings: &mut IndexSet<Text>,
    bases: &mut IndexSet<u32>,
    file: &[u8],
) -> Result<u32, NoMemory>
    requires strings { length strings.old.keys < 2 ^ 31 }
    requires bases { length bases.old.keys < 2 ^ 31 }
    requires short { length file.now ≤ 4096 }
    ensures texts { OnOk result (Grown 1 strings.old.keys strings.new.keys) }
    ensures files { OnOk result (GrownFiles file.now strings.new.keys bases.old.keys
        bases.new.keys) }
    ensures there { IfOk result (λ base. base < length bases.new.keys) }
    ensures is { IfOk result (λ base. IsPlace file.now
        (slice_index_or bases.new.keys base 0) strings.new.keys) }
    ensures apart { OnOk result (IsDistinct nat_eq bases.new.keys) }
    ensures used { OnOk result
        (Covers bases.new.keys (length strings.old.keys) (length strings.new.keys)) }
    ensures file_used { IfOk result
        (λ base. Covers (base ∷ []) (length bases.old.keys) (length bases.new.keys)) }
{
    let file = place_of(alloc, strings, file)?;
    let (base, _new) = bases.insert_full(file)?;
    Ok(base as u32)
}

// A constant with the places of its name and its file.
fn entry_of(
    alloc: Global,
    strings: &mut IndexSet<Text>,
    bases: &mut IndexSet<u32>,
    name: &[u8],
    constant: &Constant,
) -> Result<Entry, NoMemory>
    requires strings { length strings.old.keys < 2 ^ 30 }
    requires bases { length bases.old.keys < 2 ^ 30 }
    requires small { IsSmallEntry (name.now, declaration constant.now) }
    ensures texts { OnOk result (Grown 3 strings.old.keys strings.new.keys) }
    ensures files { OnOk result (GrownFiles (declaration constant.now).file strings.new.keys
        bases.old.keys bases.new.keys) }
    ensures is { IfOk result (λ e. IsEntryOf strings.new.keys bases.new.keys (entry e) (
      name.now,
      declaration constant.now,
    )) }
    ensures apart { OnOk result (IsDistinct nat_eq bases.new.keys) }
    ensures used { IfOk result (λ e. Covers (bases.new.keys ++ entry_uses (entry e))
        (length strings.old.keys) (length strings.new.keys)) }
    ensures file_used { IfOk result
        (λ e. Covers (e.base ∷ []) (length bases.old.keys) (length bases.new.keys)) }
{
    let base = base_of(alloc, strings, bases, constant.pos.file.bytes())?;
    let name = place_of(alloc, strings, name)?;
    let value = value_of(alloc, strings, constant.value)?;
    Ok(Entry {
        name,
        base,
        line: constant.pos.line,
        column: constant.pos.col,
        value,
    })
}

// The constants of a package, and the files that declare them.
fn number_constants(
    alloc: Global,
    strings: &mut IndexSet<Text>,
    package: &Package,
) -> Result<(Vec<u32>, Vec<Entry>), NoMemory>
    requires room { length strings.old.keys ≤ 2 }
    requires small { IsSmallExport «package».now }
    requires names { HasNames «package».now }
    ensures numbers { IfOk result (λ r. NumbersConstants (entries «package».now.decls)
        (map entry r.1.items) r.0.items strings.old.keys strings.new.keys) }
    ensures listed { IfOk result (λ _. IsMapOf (entries «package».now.decls) «package».now.decls) }
{
    let mut bases = IndexSet::new(alloc);
    let mut entries = Vec::new(alloc);
    for (text, constant) in package.constants() {
        let entry = entry_of(alloc, strings, &mut bases, text, constant)?;
        entries.push(entry)?;
    }
    let bases = bases_of(alloc, bases)?;
    Ok((bases, entries))
}

// The files in the order of their places.
fn bases_of(alloc: Global, bases: IndexSet<u32>) -> Result<Vec<u32>, NoMemory>
    ensures { IfOk result (λ v. v.items ≡ bases.keys) }
{
    bases.into_iter().collect(alloc)
}

// The strings in the order of their places.
fn strings_of(alloc: Global, strings: IndexSet<Text>) -> Result<Vec<Text>, NoMemory>
    ensures { IfOk result (λ v. v.items ≡ strings.keys) }
{
    strings.into_iter().collect(alloc)
}

// A package below with the places of its path and its fingerprint.
fn below_of(alloc: Global, strings: &mut IndexSet<Text>, below: &Below) -> Result<BelowEl, NoMemory>
    requires room { length strings.old.keys < 2 ^ 30 }
    requires is { IsBelow (linked_of.below below.now) }
    ensures texts { OnOk result (Grown 2 strings.old.keys strings.new.keys) }
    ensures below { IfOk result (λ b. IsBelowOf strings.new.keys b (linked_of.below below.now)) }
    ensures used { IfOk result
        (λ b. Covers (below_uses b) (length strings.old.keys) (length strings.new.keys)) }
{
    let path = place_of(alloc, strings, below.path.bytes())?;
    let print = place_of(alloc, strings, &below.print)?;
    Ok(BelowEl {
        path,
        print,
        direct: below.direct,
    })
}

// The packages below.
fn number_below(
    alloc: Global,
    strings: &mut IndexSet<Text>,
    belows: &[Below],
) -> Result<Vec<BelowEl>, NoMemory>
    requires room { length strings.old.keys ≤ 2 ^ 14 }
    requires few { length belows.now ≤ 1024 }
    requires each { AllByRecursion IsBelow (map linked_of.below belows.now) }
    ensures { IfOk result (λ v. NumbersBelow (map linked_of.below belows.now) v.items
        strings.old.keys strings.new.keys) }
{
    let mut entries = Vec::new(alloc);
    for below in belows {
        let entry = below_of(alloc, strings, below)?;
        entries.push(entry)?;
    }
    Ok(entries)
}

/// Gives the strings and the files of a package, and of the list of packages below it, their
/// numbers.
pub(crate) fn number(alloc: Global, linked: &Linked) -> Result<Numbered, NoMemory>
    requires { IsSmall linked.now }
    ensures { IfOk result (λ n. Numbers n linked.now) }
{
    let mut strings = IndexSet::new(alloc);
    let path = place_of(alloc, &mut strings, linked.package.path())?;
    let name = place_of(alloc, &mut strings, linked.package.name())?;
    let (bases, entries) = number_constants(alloc, &mut strings, &linked.package)?;
    let below = number_below(alloc, &mut strings, &linked.below)?;
    let strings = strings_of(alloc, strings)?;
    Ok(Numbered {
        strings,
        path,
        name,
        bases,
        entries,
        below: PrivateRootEl {
            below: Items::new(below),
        },
    })
}
