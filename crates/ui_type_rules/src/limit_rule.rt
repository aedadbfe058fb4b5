ghost use Rattle.std.specs.Prelude.{◌≡◌, ◌++◌, true, [], map, length, get_or, IfOk, OnOk};
ghost use Rattle.ui_file.specs.Rules as rules;
ghost use Rattle.ui_file.specs.Rules.{is_within, extents_from, no_nodes};
ghost use Rattle.ui_file_rules.specs.First.{FirstOf};
ghost use Rattle.ui_type_rules.specs.Within.{AreBeside, IsWithin};

use std::alloc::Global;
use ui_etype::{FieldEl, MethodEl, TermEl, TypeEl, TypeUse};
use ui_file::{Extent, File};
use ui_file_rules::FileRule;
use ui_frame::{NoMemory, Section};

/// How many nodes a type has at most, and how deep it is at most.
const SIZE_LIMIT: u64 = 65_536;

const DEPTH_LIMIT: u32 = 256;

fn put_uses(out: &mut Vec<TypeUse>, uses: &[TypeUse]) -> Result<(), NoMemory>
    ensures { OnOk result (out.new.items ≡ out.old.items ++ uses.now) }
{
    for u in uses {
        out.push(*u)?;
    }
    Ok(())
}

fn put_fields(out: &mut Vec<TypeUse>, fields: &[FieldEl]) -> Result<(), NoMemory>
    ensures { OnOk result (out.new.items ≡ out.old.items ++ map (λ f. f.ty) fields.now) }
{
    for field in fields {
        out.push(field.ty)?;
    }
    Ok(())
}

fn put_methods(out: &mut Vec<TypeUse>, methods: &[MethodEl]) -> Result<(), NoMemory>
    ensures { OnOk result (out.new.items ≡ out.old.items ++ map (λ m. m.sig) methods.now) }
{
    for method in methods {
        out.push(method.sig)?;
    }
    Ok(())
}

fn put_terms(out: &mut Vec<TypeUse>, terms: &[TermEl]) -> Result<(), NoMemory>
    ensures { OnOk result (out.new.items ≡ out.old.items ++ map (λ t. t.ty) terms.now) }
{
    for term in terms {
        out.push(term.ty)?;
    }
    Ok(())
}

// Appends the types that a Type is made of.
fn put_parts(out: &mut Vec<TypeUse>, el: &TypeEl) -> Result<(), NoMemory>
    ensures { OnOk result (out.new.items ≡ out.old.items ++ rules.parts_of el.now) }
{
    match el {
        TypeEl::Basic(_) => Ok(()),
        TypeEl::Named { args, .. } => put_uses(out, args.items()),
        TypeEl::Pointer(u) => put_uses(out, &[*u]),
        TypeEl::Slice(u) => put_uses(out, &[*u]),
        TypeEl::Array { elem, .. } => put_uses(out, &[*elem]),
        TypeEl::Map { key, elem } => put_uses(out, &[*key, *elem]),
        TypeEl::Signature { params, results } => {
            put_uses(out, params.items())?;
            put_uses(out, results.items())
        }
        TypeEl::Struct(fields) => put_fields(out, fields.items()),
        TypeEl::Interface {
            methods,
            unions,
            ..
        } => {
            put_methods(out, methods.items())?;
            put_uses(out, unions.items())
        }
        TypeEl::Union(terms) => put_terms(out, terms.items()),
        TypeEl::TypeParam(_) => Ok(()),
    }
}

fn used_extent(done: &[Extent], u: &TypeUse) -> Extent
    ensures { result ≡ rules.used_extent done.now u.now }
{
    match u {
        TypeUse::Type(k) => match done.get(*k as usize) {
            Some(extent) => *extent,
            None => Extent { size: 0, depth: 0 },
        },
        TypeUse::Derived(_) => Extent { size: 0, depth: 0 },
    }
}

// Types side by side, unless they are past the limits.
#[tactic(auto, using(crate::proofs::Extents::beside_all))]
fn all_beside(done: &[Extent], parts: &[TypeUse]) -> Option<Extent>
    ensures { AreBeside (rules.all_beside done.now parts.now) result }
{
    let mut size = 0;
    let mut depth = 0;
    for part in parts {
        let extent = used_extent(done, part);
        if extent.size > SIZE_LIMIT - size {
            return None;
        }
        if extent.depth > DEPTH_LIMIT {
            return None;
        }
        size += extent.size;
        depth = if extent.depth > depth {
            extent.depth
        } else {
            depth
        };
    }
    Some(Extent { size, depth })
}

// The extent of a type of these parts, unless it is past the limits.
#[tactic(auto, using(crate::proofs::Extents::above_past, crate::proofs::Extents::above_big, crate::proofs::Extents::above_deep, crate::proofs::Extents::above_fits))]
fn extent_of(done: &[Extent], parts: &[TypeUse]) -> Option<Extent>
    ensures { IsWithin (rules.above (rules.all_beside done.now parts.now)) result }
{
    match all_beside(done, parts) {
        Some(all) => {
            if all.size >= SIZE_LIMIT {
                return None;
            }
            if all.depth >= DEPTH_LIMIT {
                return None;
            }
            Some(Extent {
                size: 1 + all.size,
                depth: 1 + all.depth,
            })
        }
        None => None,
    }
}

// The extent of a Type by those of smaller number, unless it is past the limits.
#[tactic(auto, using(crate::proofs::Extents::of_parts))]
fn type_extent(alloc: Global, done: &[Extent], el: &TypeEl) -> Result<Option<Extent>, NoMemory>
    ensures { IfOk result (IsWithin (rules.extent_of done.now el.now)) }
{
    let mut parts = Vec::new(alloc);
    put_parts(&mut parts, el)?;
    Ok(extent_of(done, &parts))
}

// The first Type that is past the limits.
#[tactic(auto, using(crate::proofs::Extents::none_done, crate::proofs::Extents::one_done, crate::proofs::Extents::past_here, crate::proofs::Extents::all_done))]
fn first_past(alloc: Global, types: &[TypeEl]) -> Result<Option<usize>, NoMemory>
    ensures { IfOk result (FirstOf (λ k. is_within (get_or (extents_from [] types.now) k no_nodes)
        ≡ true) (length types.now)) }
{
    let mut done = Vec::new(alloc);
    for k in 0..types.len() {
        match type_extent(alloc, &done, &types[k])? {
            Some(extent) => done.push(extent)?,
            None => return Ok(Some(k)),
        }
    }
    Ok(None)
}

/// That no type is past its limits.
#[derive(Drop)]
pub struct TypeLimit<'a> {
    pub file: &'a File,
}

impl FileRule for TypeLimit<'_> {
    ghost use Rattle.ui_file.specs.Rules.{KeepsLimit, count_in};

    ghost keeps = { λ r s k. KeepsLimit r.file.now s k };

    ghost count = { λ r s. count_in r.file.now s };

    #[tactic(auto, using(crate::proofs::Extents::limit_at))]
    fn first_in(&self, alloc: Global, s: Section) -> Result<Option<usize>, NoMemory> {
        match s {
            Section::Types => first_past(alloc, self.file.types.items()),
            _ => Ok(None),
        }
    }
}
