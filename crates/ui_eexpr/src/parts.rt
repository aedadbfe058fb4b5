//! The parts of an expression that hold no expression.
ghost use Rattle.std.specs.Prelude.{◌≡◌};
ghost use Rattle.ui_strpos.specs.Reading.{Gives};
ghost use Rattle.ui_strpos.specs.Format.{uint_field};
ghost use Rattle.ui_etype.specs.Types.{outer_use};
ghost use Rattle.ui_eexpr.specs.declared.expr.ExprEl.{out-ExprEl};
ghost use Rattle.ui_eexpr.specs.Exprs.{constant, is_local, maybe, plain_cases};

use crate::callee::CalleeEl;
use crate::codes::bad_code;
use crate::expr::ExprEl;
use crate::uses::InstanceUse;
use std::alloc::Global;
use ui_edecl::ValueEl;
use ui_etype::{TypeUse, get_outer};
use ui_strpos::{Cause, ElementFault, ElementIn, Fields};

/// Reads the number of a local, of which there are so many.
pub fn get_local(input: &mut ElementIn<'_>, locals: u64) -> Result<u64, ElementFault>
    ensures read { Gives (λ v. v) result input.new ((uint_field (is_local locals)).read input.old) }
    ensures context { input.new.context ≡ input.old.context }
{
    let offset = input.place();
    let local = input.uint()?;
    if local >= locals {
        return Err(ElementFault::Bad {
            offset,
            cause: Cause::BadLocal,
        });
    }
    Ok(local)
}

/// Reads whether a type is there, and the type where it is.
pub fn get_maybe_type(input: &mut ElementIn<'_>) -> Result<Option<TypeUse>, ElementFault>
    ensures read { Gives (λ v. v) result input.new ((maybe outer_use).read input.old) }
    ensures context { input.new.context ≡ input.old.context }
{
    if input.truth()? {
        return Ok(Some(get_outer(input)?));
    }
    Ok(None)
}

fn get_constant(alloc: Global, input: &mut ElementIn<'_>) -> Result<ExprEl, ElementFault>
    ensures read { Gives out-ExprEl result input.new (constant.read input.old) }
    ensures context { input.new.context ≡ input.old.context }
{
    let ty = get_outer(input)?;
    let value = ValueEl::get(alloc, input)?;
    Ok(ExprEl::Const { ty, value })
}

/// Reads the fields of an expression that holds no other, by its code.
pub fn get_plain(
    alloc: Global,
    input: &mut ElementIn<'_>,
    locals: u64,
    code: u64,
) -> Result<ExprEl, ElementFault>
    ensures read { Gives out-ExprEl result input.new ((plain_cases locals code).read input.old) }
    ensures context { input.new.context ≡ input.old.context }
{
    match code {
        0 => get_constant(alloc, input),
        1 => Ok(ExprEl::Nil(get_outer(input)?)),
        2 => Ok(ExprEl::Zero(get_outer(input)?)),
        3 => Ok(ExprEl::Local(get_local(input, locals)?)),
        4 => Ok(ExprEl::Global(InstanceUse::get(alloc, input)?)),
        5 => Ok(ExprEl::Func(CalleeEl::get(alloc, input)?)),
        _ => Err(bad_code(input.place())),
    }
}
