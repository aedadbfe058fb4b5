ghost use Rattle.std.specs.Prelude.{◌≡◌, IfOk};

use crate::id::TypeId;
use crate::part::{Part, copy_parts};
use std::alloc::Global;
use ui_base::{Items, Name, NoMemory, Pos, Text, Value};

/// A type parameter with its constraint.
#[derive(Drop)]
pub struct TParam {
    pub name: Text,
    pub bound: TypeId,
}

/// The type parameters of a declaration, in order.
pub type TParams = Items<TParam>;

impl Part for TParam {
    ghost use Rattle.std.specs.Prelude.{refl};

    ghost type_of = { λ p. p.bound };

    ghost with_type = { λ p t. record p { bound = t } };

    ghost keeps = { λ p. refl };

    fn type_id(&self) -> TypeId {
        self.bound
    }

    fn retyped(&self, alloc: Global, t: TypeId) -> Result<TParam, NoMemory> {
        let name = self.name.copy(alloc)?;
        Ok(TParam { name, bound: t })
    }
}

/// A method of a defined type: whether its receiver is a pointer, and its signature without the
/// receiver. The name has the empty path exactly where it is exported.
#[derive(Drop)]
pub struct MethodFace {
    pub name: Name,
    pub pos: Pos,
    pub pointer: bool,
    pub sig: TypeId,
}

/// The methods of a defined type.
pub type MethodFaces = Items<MethodFace>;

impl Part for MethodFace {
    ghost use Rattle.std.specs.Prelude.{refl};

    ghost type_of = { λ m. m.sig };

    ghost with_type = { λ m t. record m { sig = t } };

    ghost keeps = { λ m. refl };

    fn type_id(&self) -> TypeId {
        self.sig
    }

    fn retyped(&self, alloc: Global, t: TypeId) -> Result<MethodFace, NoMemory> {
        let name = self.name.copy(alloc)?;
        let pos = copy_pos(alloc, &self.pos)?;
        Ok(MethodFace {
            name,
            pos,
            pointer: self.pointer,
            sig: t,
        })
    }
}

/// What a name is declared as.
#[derive(Drop)]
pub enum Face {
    /// Another name of a type.
    Alias {
        ty: TypeId,
    },
    Const {
        ty: TypeId,
        value: Value,
    },
    Var {
        ty: TypeId,
    },
    Func {
        params: TParams,
        sig: TypeId,
    },
    /// A defined type with its underlying type.
    Defined {
        params: TParams,
        under: TypeId,
        methods: MethodFaces,
    },
}

/// A declaration, and where its name stands.
#[derive(Drop)]
pub struct Decl {
    pub pos: Pos,
    pub face: Face,
}

/// Declarations by name.
pub type Decls = Items<(Name, Decl)>;

fn copy_pos(alloc: Global, pos: &Pos) -> Result<Pos, NoMemory>
    ensures { IfOk result (λ p. p ≡ pos.now) }
{
    let file = pos.file.copy(alloc)?;
    Ok(Pos {
        file,
        line: pos.line,
        col: pos.col,
    })
}

fn copy_value(alloc: Global, value: &Value) -> Result<Value, NoMemory>
    ensures { IfOk result (λ v. v ≡ value.now) }
{
    match value {
        Value::Whole(n) => Ok(Value::Whole(*n)),
        Value::Str(text) => {
            let text = text.copy(alloc)?;
            Ok(Value::Str(text))
        }
        Value::Truth(b) => Ok(Value::Truth(*b)),
    }
}

impl Face {
    /// A face of its own with the same parts.
    pub fn copy(&self, alloc: Global) -> Result<Face, NoMemory>
        ensures { IfOk result (λ face. face ≡ self.now) }
    {
        match self {
            Face::Alias { ty } => Ok(Face::Alias { ty: *ty }),
            Face::Const { ty, value } => {
                let value = copy_value(alloc, value)?;
                Ok(Face::Const { ty: *ty, value })
            }
            Face::Var { ty } => Ok(Face::Var { ty: *ty }),
            Face::Func { params, sig } => {
                let params = copy_parts(alloc, params.items())?;
                Ok(Face::Func { params, sig: *sig })
            }
            Face::Defined {
                params,
                under,
                methods,
            } => {
                let params = copy_parts(alloc, params.items())?;
                let methods = copy_parts(alloc, methods.items())?;
                Ok(Face::Defined {
                    params,
                    under: *under,
                    methods,
                })
            }
        }
    }
}

impl Decl {
    /// A declaration of its own with the same parts.
    pub fn copy(&self, alloc: Global) -> Result<Decl, NoMemory>
        ensures { IfOk result (λ decl. decl ≡ self.now) }
    {
        let pos = copy_pos(alloc, &self.pos)?;
        let face = self.face.copy(alloc)?;
        Ok(Decl { pos, face })
    }
}
