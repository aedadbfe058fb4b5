ghost use Rattle.std.specs.Prelude.{◌≡◌, ◌++◌, IfOk, OnOk, List, length, map};
ghost use Rattle.ui_types.specs.declared.id.TypeId.{TypeId};
ghost use Rattle.ui_types.specs.Parts.{with_types};

use crate::id::TypeId;
use std::alloc::Global;
use ui_base::{Items, Name, NoMemory};

/// What holds one type.
pub trait Part {
    ghost type_of: { Self → TypeId };

    ghost with_type: { Self → TypeId → Self };

    /// The type.
    fn type_id(&self) -> TypeId
        ensures { result ≡ type_of self.now };

    /// A copy that holds the type `t`.
    fn retyped(&self, alloc: Global, t: TypeId) -> Result<Self, NoMemory>
        ensures { IfOk result (λ p. p ≡ with_type self.now t) };

    ghost keeps: { (p : Self) → with_type p (type_of p) ≡ p };
}

impl Part for TypeId {
    ghost use Rattle.std.specs.Prelude.{refl};

    ghost type_of = { λ t. t };

    ghost with_type = { λ t u. u };

    ghost keeps = { λ t. refl };

    fn type_id(&self) -> TypeId {
        *self
    }

    fn retyped(&self, _alloc: Global, t: TypeId) -> Result<TypeId, NoMemory> {
        Ok(t)
    }
}

/// A field of a struct. The name has the empty path exactly where it is exported.
#[derive(Drop, PartialEq, Eq, Hash)]
pub struct Field {
    pub name: Name,
    pub ty: TypeId,
}

/// The fields of a struct, in the order of their declaration.
pub type Fields = Items<Field>;

impl Part for Field {
    ghost use Rattle.std.specs.Prelude.{refl};

    ghost type_of = { λ f. f.ty };

    ghost with_type = { λ f t. record f { ty = t } };

    ghost keeps = { λ f. refl };

    fn type_id(&self) -> TypeId {
        self.ty
    }

    fn retyped(&self, alloc: Global, t: TypeId) -> Result<Field, NoMemory> {
        let name = self.name.copy(alloc)?;
        Ok(Field { name, ty: t })
    }
}

/// A method of an interface, with its signature. The name has the empty path exactly where it is
/// exported.
#[derive(Drop, PartialEq, Eq, Hash)]
pub struct Method {
    pub name: Name,
    pub sig: TypeId,
}

/// The methods of an interface, ascending by name.
pub type Methods = Items<Method>;

impl Part for Method {
    ghost use Rattle.std.specs.Prelude.{refl};

    ghost type_of = { λ m. m.sig };

    ghost with_type = { λ m t. record m { sig = t } };

    ghost keeps = { λ m. refl };

    fn type_id(&self) -> TypeId {
        self.sig
    }

    fn retyped(&self, alloc: Global, t: TypeId) -> Result<Method, NoMemory> {
        let name = self.name.copy(alloc)?;
        Ok(Method { name, sig: t })
    }
}

/// A term of a union, with or without a `~`.
#[derive(Clone, Copy, PartialEq, Eq, Hash)]
pub struct Term {
    pub tilde: bool,
    pub ty: TypeId,
}

/// The terms of a union, in the order written.
pub type Terms = Items<Term>;

impl Part for Term {
    ghost use Rattle.std.specs.Prelude.{refl};

    ghost type_of = { λ t. t.ty };

    ghost with_type = { λ t u. record t { ty = u } };

    ghost keeps = { λ t. refl };

    fn type_id(&self) -> TypeId {
        self.ty
    }

    fn retyped(&self, _alloc: Global, t: TypeId) -> Result<Term, NoMemory> {
        Ok(Term {
            tilde: self.tilde,
            ty: t,
        })
    }
}

/// The types that the parts hold, put after these.
pub fn push_types<P: Part>(ids: &mut Vec<TypeId>, parts: &[P]) -> Result<(), NoMemory>
    ensures { OnOk result (ids.new.items ≡ ids.old.items ++ map P.type_of parts.now) }
{
    for part in parts {
        ids.push(part.type_id())?;
    }
    Ok(())
}

/// The types that the parts hold.
pub fn types_of<P: Part>(alloc: Global, parts: &[P]) -> Result<Vec<TypeId>, NoMemory>
    ensures { IfOk result (λ ids. ids.items ≡ map P.type_of parts.now) }
{
    let mut ids = Vec::new(alloc);
    push_types(&mut ids, parts)?;
    Ok(ids)
}

/// Copies of the parts that hold these types, one each.
pub fn parts_with<P: Part + Drop>(
    alloc: Global,
    parts: &[P],
    ids: &[TypeId],
) -> Result<Items<P>, NoMemory>
    requires { length ids.now ≡ length parts.now }
    ensures { IfOk result (λ made. made ≡ with_types P.with_type parts.now ids.now) }
{
    let mut made = Vec::new(alloc);
    for (k, part) in parts.iter().enumerate() {
        made.push(part.retyped(alloc, ids[k])?)?;
    }
    Ok(Items::new(made))
}

/// Copies of the parts.
pub fn copy_parts<P: Part + Drop>(alloc: Global, parts: &[P]) -> Result<Items<P>, NoMemory>
    ensures { IfOk result (λ made. made ≡ parts.now) }
{
    let ids = types_of(alloc, parts)?;
    parts_with(alloc, parts, ids.as_slice())
}
