ghost use Rattle.std.specs.Prelude.{◌≡◌};
ghost use Rattle.std.specs.List.{list_all};
ghost use Rattle.ui_file.specs.Rules as rules;

use crate::by_index::{Test, first_not};
use crate::rule::FileRule;
use std::alloc::Global;
use ui_edecl::{DeclaredMethodEl, ObjEl};
use ui_etype::{FieldEl, MethodEl, TermEl, TypeEl, TypeUse};
use ui_file::File;
use ui_frame::{NoMemory, Section};

fn is_closed(u: &TypeUse) -> bool
    ensures { result ≡ rules.is_closed u.now }
{
    match u {
        TypeUse::Type(_) => true,
        TypeUse::Derived(_) => false,
    }
}

fn are_closed(uses: &[TypeUse]) -> bool
    ensures { result ≡ list_all rules.is_closed uses.now }
{
    uses.iter().all(|u| is_closed(u))
}

fn fields_closed(fields: &[FieldEl]) -> bool
    ensures { result ≡ list_all (λ f. rules.is_closed f.ty) fields.now }
{
    fields.iter().all(|f| is_closed(&f.ty))
}

fn methods_closed(methods: &[MethodEl]) -> bool
    ensures { result ≡ list_all (λ m. rules.is_closed m.sig) methods.now }
{
    methods.iter().all(|m| is_closed(&m.sig))
}

fn terms_closed(terms: &[TermEl]) -> bool
    ensures { result ≡ list_all (λ t. rules.is_closed t.ty) terms.now }
{
    terms.iter().all(|t| is_closed(&t.ty))
}

fn declared_closed(methods: &[DeclaredMethodEl]) -> bool
    ensures { result ≡ list_all (λ m. rules.is_closed m.sig) methods.now }
{
    methods.iter().all(|m| is_closed(&m.sig))
}

// Whether a Type uses no derived type and is no type parameter.
fn stands_alone(el: &TypeEl) -> bool
    ensures { result ≡ rules.stands_alone el.now }
{
    match el {
        TypeEl::Basic(_) => true,
        TypeEl::Named { args, .. } => are_closed(args.items()),
        TypeEl::Pointer(base) => is_closed(base),
        TypeEl::Slice(elem) => is_closed(elem),
        TypeEl::Array { elem, .. } => is_closed(elem),
        TypeEl::Map { key, elem } => is_closed(key) && is_closed(elem),
        TypeEl::Signature { params, results } => {
            are_closed(params.items()) && are_closed(results.items())
        }
        TypeEl::Struct(fields) => fields_closed(fields.items()),
        TypeEl::Interface {
            methods,
            unions,
            ..
        } => methods_closed(methods.items()) && are_closed(unions.items()),
        TypeEl::Union(terms) => terms_closed(terms.items()),
        TypeEl::TypeParam(_) => false,
    }
}

// That a Type stands by itself.
#[derive(Drop)]
struct Alone<'a> {
    types: &'a [TypeEl],
}

impl Test for Alone<'_> {
    ghost use Rattle.std.specs.Prelude.{get_or};
    ghost use Rattle.ui_file.specs.Rules.{stands_alone, no_type};

    ghost passes = { λ t k. stands_alone (get_or t.types.now k no_type) };

    fn holds(&self, k: usize) -> bool {
        match self.types.get(k) {
            Some(el) => stands_alone(el),
            None => true,
        }
    }
}

/// That each Type stands by itself, since no dictionary has derived types.
#[derive(Drop)]
pub struct DerivedOrder<'a> {
    pub file: &'a File,
}

impl FileRule for DerivedOrder<'_> {
    ghost use Rattle.ui_file.specs.Rules.{KeepsDerived, count_in};

    ghost keeps = { λ r s k. KeepsDerived r.file.now s k };

    ghost count = { λ r s. count_in r.file.now s };

    fn first_in(&self, _alloc: Global, s: Section) -> Result<Option<usize>, NoMemory> {
        match s {
            Section::Types => {
                let types = self.file.types.items();
                let count = types.len();
                Ok(first_not(&Alone { types }, count))
            }
            _ => Ok(None),
        }
    }
}

// Whether an Obj uses no entry of its dictionary.
fn uses_no_entry(object: &ObjEl) -> bool
    ensures { result ≡ rules.uses_no_entry object.now }
{
    match object {
        ObjEl::Alias { ty, .. } => is_closed(ty),
        ObjEl::Const { ty, .. } => is_closed(ty),
        ObjEl::Defined { under, methods, .. } => {
            is_closed(under) && declared_closed(methods.items())
        }
        ObjEl::Func { sig, .. } => is_closed(sig),
        ObjEl::Var { ty, .. } => is_closed(ty),
        ObjEl::Stub => true,
    }
}

// That an Obj uses no entry.
#[derive(Drop)]
struct NoEntry<'a> {
    objects: &'a [ObjEl],
}

impl Test for NoEntry<'_> {
    ghost use Rattle.std.specs.Prelude.{get_or};
    ghost use Rattle.ui_edecl.specs.declared.object.ObjEl.TheVariants.{Stub};
    ghost use Rattle.ui_file.specs.Rules.{uses_no_entry};

    ghost passes = { λ t k. uses_no_entry (get_or t.objects.now k Stub) };

    fn holds(&self, k: usize) -> bool {
        match self.objects.get(k) {
            Some(object) => uses_no_entry(object),
            None => true,
        }
    }
}

/// That no Obj uses an entry of its dictionary, since these have none.
#[derive(Drop)]
pub struct BadIndex<'a> {
    pub file: &'a File,
}

impl FileRule for BadIndex<'_> {
    ghost use Rattle.ui_file.specs.Rules.{KeepsIndex, count_in};

    ghost keeps = { λ r s k. KeepsIndex r.file.now s k };

    ghost count = { λ r s. count_in r.file.now s };

    fn first_in(&self, _alloc: Global, s: Section) -> Result<Option<usize>, NoMemory> {
        match s {
            Section::Obj => {
                let objects = self.file.objects.items();
                let count = objects.len();
                Ok(first_not(&NoEntry { objects }, count))
            }
            _ => Ok(None),
        }
    }
}
