ghost use Rattle.std.specs.Prelude.{◌≡◌};
ghost use Rattle.std.specs.List.{list_all};
ghost use Rattle.ui_file.specs.Rules as rules;

use std::alloc::Global;
use ui_edecl::{DeclaredMethodEl, ObjEl};
use ui_etype::{MethodEl, TypeEl, TypeUse};
use ui_file::File;
use ui_file_rules::{FileRule, Test, first_not};
use ui_frame::{NoMemory, Section};

fn signature(el: &TypeEl) -> bool
    ensures { result ≡ rules.is_signature el.now }
{
    match el {
        TypeEl::Basic(_) => false,
        TypeEl::Named { .. } => false,
        TypeEl::Pointer(_) => false,
        TypeEl::Slice(_) => false,
        TypeEl::Array { .. } => false,
        TypeEl::Map { .. } => false,
        TypeEl::Signature { .. } => true,
        TypeEl::Struct(_) => false,
        TypeEl::Interface { .. } => false,
        TypeEl::Union(_) => false,
        TypeEl::TypeParam(_) => false,
    }
}

fn union(el: &TypeEl) -> bool
    ensures { result ≡ rules.is_union el.now }
{
    match el {
        TypeEl::Basic(_) => false,
        TypeEl::Named { .. } => false,
        TypeEl::Pointer(_) => false,
        TypeEl::Slice(_) => false,
        TypeEl::Array { .. } => false,
        TypeEl::Map { .. } => false,
        TypeEl::Signature { .. } => false,
        TypeEl::Struct(_) => false,
        TypeEl::Interface { .. } => false,
        TypeEl::Union(_) => true,
        TypeEl::TypeParam(_) => false,
    }
}

fn under(el: &TypeEl) -> bool
    ensures { result ≡ rules.is_under el.now }
{
    match el {
        TypeEl::Basic(_) => true,
        TypeEl::Named { .. } => false,
        TypeEl::Pointer(_) => true,
        TypeEl::Slice(_) => true,
        TypeEl::Array { .. } => true,
        TypeEl::Map { .. } => true,
        TypeEl::Signature { .. } => true,
        TypeEl::Struct(_) => true,
        TypeEl::Interface { .. } => true,
        TypeEl::Union(_) => true,
        TypeEl::TypeParam(_) => false,
    }
}

fn is_signature(types: &[TypeEl], u: &TypeUse) -> bool
    ensures { result ≡ rules.is_signature (rules.used_type types.now u.now) }
{
    match u {
        TypeUse::Type(k) => match types.get(*k as usize) {
            Some(el) => signature(el),
            None => false,
        },
        TypeUse::Derived(_) => false,
    }
}

fn is_union(types: &[TypeEl], u: &TypeUse) -> bool
    ensures { result ≡ rules.is_union (rules.used_type types.now u.now) }
{
    match u {
        TypeUse::Type(k) => match types.get(*k as usize) {
            Some(el) => union(el),
            None => false,
        },
        TypeUse::Derived(_) => false,
    }
}

// Whether a type can be an underlying one.
fn is_under(types: &[TypeEl], u: &TypeUse) -> bool
    ensures { result ≡ rules.is_under (rules.used_type types.now u.now) }
{
    match u {
        TypeUse::Type(k) => match types.get(*k as usize) {
            Some(el) => under(el),
            None => true,
        },
        TypeUse::Derived(_) => true,
    }
}

// Whether the types of an interface's methods are signatures.
fn have_signatures(types: &[TypeEl], methods: &[MethodEl]) -> bool
    ensures { result ≡ list_all (λ m. rules.is_signature (rules.used_type types.now m.sig))
        methods.now }
{
    methods.iter().all(|m| is_signature(types, &m.sig))
}

fn are_unions(types: &[TypeEl], uses: &[TypeUse]) -> bool
    ensures { result ≡ list_all (λ u. rules.is_union (rules.used_type types.now u)) uses.now }
{
    uses.iter().all(|u| is_union(types, u))
}

// Whether the types of a declaration's methods are signatures.
fn declare_signatures(types: &[TypeEl], methods: &[DeclaredMethodEl]) -> bool
    ensures { result ≡ list_all (λ m. rules.is_signature (rules.used_type types.now m.sig))
        methods.now }
{
    methods.iter().all(|m| is_signature(types, &m.sig))
}

fn type_fits(types: &[TypeEl], el: &TypeEl) -> bool
    ensures { result ≡ rules.type_fits types.now el.now }
{
    match el {
        TypeEl::Interface {
            methods,
            unions,
            ..
        } => have_signatures(types, methods.items()) && are_unions(types, unions.items()),
        TypeEl::Basic(_) => true,
        TypeEl::Named { .. } => true,
        TypeEl::Pointer(_) => true,
        TypeEl::Slice(_) => true,
        TypeEl::Array { .. } => true,
        TypeEl::Map { .. } => true,
        TypeEl::Signature { .. } => true,
        TypeEl::Struct(_) => true,
        TypeEl::Union(_) => true,
        TypeEl::TypeParam(_) => true,
    }
}

fn object_fits(types: &[TypeEl], object: &ObjEl) -> bool
    ensures { result ≡ rules.object_fits types.now object.now }
{
    match object {
        ObjEl::Defined { under, methods, .. } => {
            is_under(types, under) && declare_signatures(types, methods.items())
        }
        ObjEl::Func { sig, .. } => is_signature(types, sig),
        ObjEl::Alias { .. } => true,
        ObjEl::Const { .. } => true,
        ObjEl::Var { .. } => true,
        ObjEl::Stub => true,
    }
}

// That signatures and unions of an interface are such.
#[derive(Drop)]
struct Interfaces<'a> {
    types: &'a [TypeEl],
}

impl Test for Interfaces<'_> {
    ghost use Rattle.std.specs.Prelude.{get_or};
    ghost use Rattle.ui_file.specs.Rules.{type_fits, no_type};

    ghost passes = { λ t k. type_fits t.types.now (get_or t.types.now k no_type) };

    fn holds(&self, k: usize) -> bool {
        match self.types.get(k) {
            Some(el) => type_fits(self.types, el),
            None => true,
        }
    }
}

// That the underlying type and the signatures of a declaration are such.
#[derive(Drop)]
struct Declarations<'a> {
    types: &'a [TypeEl],
    objects: &'a [ObjEl],
}

impl Test for Declarations<'_> {
    ghost use Rattle.std.specs.Prelude.{get_or};
    ghost use Rattle.ui_edecl.specs.declared.object.ObjEl.TheVariants.{Stub};
    ghost use Rattle.ui_file.specs.Rules.{object_fits};

    ghost passes = { λ t k. object_fits t.types.now (get_or t.objects.now k Stub) };

    fn holds(&self, k: usize) -> bool {
        match self.objects.get(k) {
            Some(object) => object_fits(self.types, object),
            None => true,
        }
    }
}

/// That underlying types, signatures and unions are such.
#[derive(Drop)]
pub struct NamedUnder<'a> {
    pub file: &'a File,
}

impl FileRule for NamedUnder<'_> {
    ghost use Rattle.ui_file.specs.Rules.{KeepsUnder, count_in};

    ghost keeps = { λ r s k. KeepsUnder r.file.now s k };

    ghost count = { λ r s. count_in r.file.now s };

    fn first_in(&self, _alloc: Global, s: Section) -> Result<Option<usize>, NoMemory> {
        let types = self.file.types.items();
        let objects = self.file.objects.items();
        match s {
            Section::Types => {
                let count = types.len();
                Ok(first_not(&Interfaces { types }, count))
            }
            Section::Obj => {
                let count = objects.len();
                Ok(first_not(&Declarations { types, objects }, count))
            }
            _ => Ok(None),
        }
    }
}
