ghost use Rattle.std.specs.Prelude.{◌≡◌, OnOk};
ghost use Rattle.ui_strpos.specs.Reading.{Gives};
ghost use Rattle.ui_edecl.specs.Objects.{alias, constant, defined, func, var, cases};

use crate::method::DeclaredMethodEl;
use crate::param::{ParamEl, get_params};
use crate::value::ValueEl;
use std::alloc::Global;
use ui_base::Items;
use ui_eobj::PosEl;
use ui_etype::{TypeUse, get_outer};
use ui_frame::NoMemory;
use ui_strpos::{
    Cause, Element, ElementFault, ElementIn, ElementOut, Fields, get_entries, put_entries,
    put_times,
};

/// What a name is declared as. Go specification, "Declarations and scope".
#[derive(PartialEq, Eq, Drop)]
pub enum ObjEl {
    Alias {
        pos: PosEl,
        ty: TypeUse,
    },
    Const {
        pos: PosEl,
        ty: TypeUse,
        value: ValueEl,
    },
    /// A defined type with its underlying type and its methods, which ascend by name and then by
    /// package.
    Defined {
        pos: PosEl,
        params: Items<ParamEl>,
        under: TypeUse,
        methods: Items<DeclaredMethodEl>,
    },
    Func {
        pos: PosEl,
        params: Items<ParamEl>,
        sig: TypeUse,
    },
    Var {
        pos: PosEl,
        ty: TypeUse,
    },
    /// Declared in another file.
    Stub,
}

fn alias_of(alloc: Global, input: &mut ElementIn<'_>) -> Result<ObjEl, ElementFault>
    ensures { Gives (λ v. v) result input.new (alias.read input.old) }
{
    let pos = PosEl::get(alloc, input)?;
    let ty = get_outer(input)?;
    Ok(ObjEl::Alias { pos, ty })
}

fn const_of(alloc: Global, input: &mut ElementIn<'_>) -> Result<ObjEl, ElementFault>
    ensures { Gives (λ v. v) result input.new (constant.read input.old) }
{
    let pos = PosEl::get(alloc, input)?;
    let ty = get_outer(input)?;
    let value = ValueEl::get(alloc, input)?;
    Ok(ObjEl::Const { pos, ty, value })
}

fn defined_of(alloc: Global, input: &mut ElementIn<'_>) -> Result<ObjEl, ElementFault>
    ensures { Gives (λ v. v) result input.new (defined.read input.old) }
{
    let pos = PosEl::get(alloc, input)?;
    let params = get_params(alloc, input)?;
    let under = get_outer(input)?;
    let methods = Items::new(get_entries(alloc, input)?);
    Ok(ObjEl::Defined {
        pos,
        params,
        under,
        methods,
    })
}

fn func_of(alloc: Global, input: &mut ElementIn<'_>) -> Result<ObjEl, ElementFault>
    ensures { Gives (λ v. v) result input.new (func.read input.old) }
{
    let pos = PosEl::get(alloc, input)?;
    let params = get_params(alloc, input)?;
    let sig = get_outer(input)?;
    Ok(ObjEl::Func { pos, params, sig })
}

fn var_of(alloc: Global, input: &mut ElementIn<'_>) -> Result<ObjEl, ElementFault>
    ensures { Gives (λ v. v) result input.new (var.read input.old) }
{
    let pos = PosEl::get(alloc, input)?;
    let ty = get_outer(input)?;
    Ok(ObjEl::Var { pos, ty })
}

// Reads the fields of the kind with a code.
fn object_of(alloc: Global, input: &mut ElementIn<'_>, code: u32) -> Result<ObjEl, ElementFault>
    ensures { Gives (λ v. v) result input.new ((cases code).read input.old) }
{
    match code {
        0 => alias_of(alloc, input),
        1 => const_of(alloc, input),
        2 => defined_of(alloc, input),
        3 => func_of(alloc, input),
        4 => var_of(alloc, input),
        5 => Ok(ObjEl::Stub),
        _ => Err(ElementFault::Bad {
            offset: input.place(),
            cause: Cause::BadCode,
        }),
    }
}

impl Element for ObjEl {
    ghost use Rattle.ui_edecl.specs.Objects.{object};
    ghost use Rattle.ui_edecl.specs.DeclLaws.{object_lawful};

    ghost format = { object };

    #[tactic(auto, using(ui_strpos::specs::Writing::written_append))]
    fn encode(&self, alloc: Global, out: &mut ElementOut) -> Result<(), NoMemory> {
        match self {
            ObjEl::Alias { pos, ty } => {
                pos.put(alloc, out)?;
                ty.put(alloc, out)
            }
            ObjEl::Const { pos, ty, value } => {
                pos.put(alloc, out)?;
                ty.put(alloc, out)?;
                value.put(alloc, out)
            }
            ObjEl::Defined {
                pos,
                params,
                under,
                methods,
            } => {
                pos.put(alloc, out)?;
                put_times(alloc, out, params.items())?;
                under.put(alloc, out)?;
                put_entries(alloc, out, methods.items())
            }
            ObjEl::Func { pos, params, sig } => {
                pos.put(alloc, out)?;
                put_times(alloc, out, params.items())?;
                sig.put(alloc, out)
            }
            ObjEl::Var { pos, ty } => {
                pos.put(alloc, out)?;
                ty.put(alloc, out)
            }
            ObjEl::Stub => Ok(()),
        }
    }

    fn decode(alloc: Global, input: &mut ElementIn<'_>) -> Result<ObjEl, ElementFault> {
        let code = input.shape().code;
        let value = object_of(alloc, input, code)?;
        input.finish()?;
        Ok(value)
    }

    ghost lawful = { object_lawful };
}
