ghost use Rattle.std.specs.Prelude.{◌≡◌, ◌-◌};
ghost use Rattle.ui_strpos.specs.Reading.{Gives};
ghost use Rattle.ui_strpos.specs.Format.{counted, seq};
ghost use Rattle.ui_eexpr.specs.declared.expr.ExprEl.{out-ExprEl};
ghost use Rattle.ui_eexpr.specs.Exprs.{expression, maybe, sel_value, indexed_value, entry, cases};
ghost use Rattle.ui_eexpr.specs.Exprs.{part_cases, list_cases, slice, test_cases};

use sqlite_items::{Boxed, Items};
use std::alloc::Global;
use ui_core::{Entry, IndexedValue};
use ui_eexpr::{
    CalleeEl, ExprEl, SelValue, get_binary, get_builtin, get_maybe_type, get_plain, get_unary,
};
use ui_etype::{Sel, get_outer};
use ui_strpos::{Cause, ElementFault, ElementIn, Fields};

fn bad_code(offset: usize) -> ElementFault
    ensures { result ≡ ElementFault.Bad offset Cause.BadCode }
{
    ElementFault::Bad {
        offset,
        cause: Cause::BadCode,
    }
}

/// Reads an expression among so many locals, that nests at most so deep.
#[cycle(expr)]
pub fn get_expression(
    alloc: Global,
    input: &mut ElementIn<'_>,
    locals: u64,
    depth: u32,
) -> Result<ExprEl, ElementFault>
    ensures read { Gives (λ v. v) result input.new ((expression locals depth).read input.old) }
    ensures context { input.new.context ≡ input.old.context }
{
    let offset = input.place();
    let code = input.uint()?;
    if code >= 26 {
        return Err(bad_code(offset));
    }
    if depth == 0 {
        return Err(bad_code(offset));
    }
    get_layer(alloc, input, locals, depth - 1, code)
}

// Reads the fields of an expression, by its code.
#[cycle(expr)]
fn get_layer(
    alloc: Global,
    input: &mut ElementIn<'_>,
    locals: u64,
    depth: u32,
    code: u64,
) -> Result<ExprEl, ElementFault>
    ensures read { Gives out-ExprEl result input.new
        ((cases locals (expression locals depth) code).read input.old) }
    ensures context { input.new.context ≡ input.old.context }
{
    if code < 6 {
        return get_plain(alloc, input, locals, code);
    }
    if code < 14 {
        return get_parts(alloc, input, locals, depth, code);
    }
    if code < 23 {
        return get_lists(alloc, input, locals, depth, code);
    }
    get_tests(alloc, input, locals, depth, code)
}

#[cycle(expr)]
fn get_boxed(
    alloc: Global,
    input: &mut ElementIn<'_>,
    locals: u64,
    depth: u32,
) -> Result<Boxed<ExprEl>, ElementFault>
    ensures read { Gives (λ v. v) result input.new ((expression locals depth).read input.old) }
    ensures context { input.new.context ≡ input.old.context }
{
    let expr = get_expression(alloc, input, locals, depth)?;
    Ok(Boxed::new(alloc, expr)?)
}

#[cycle(expr)]
fn get_two(
    alloc: Global,
    input: &mut ElementIn<'_>,
    locals: u64,
    depth: u32,
) -> Result<(Boxed<ExprEl>, Boxed<ExprEl>), ElementFault>
    ensures read { Gives (λ x. (x.0, x.1)) result input.new
        ((seq (expression locals depth) (λ _. (expression locals depth))).read input.old) }
    ensures context { input.new.context ≡ input.old.context }
{
    let first = get_boxed(alloc, input, locals, depth)?;
    let second = get_boxed(alloc, input, locals, depth)?;
    Ok((first, second))
}

#[cycle(expr)]
fn get_maybe(
    alloc: Global,
    input: &mut ElementIn<'_>,
    locals: u64,
    depth: u32,
) -> Result<Option<Boxed<ExprEl>>, ElementFault>
    ensures read { Gives (λ v. v) result input.new
        ((maybe (expression locals depth)).read input.old) }
    ensures context { input.new.context ≡ input.old.context }
{
    if input.truth()? {
        let expr = get_boxed(alloc, input, locals, depth)?;
        return Ok(Some(expr));
    }
    Ok(None)
}

#[cycle(expr)]
fn get_slice(
    alloc: Global,
    input: &mut ElementIn<'_>,
    locals: u64,
    depth: u32,
) -> Result<ExprEl, ElementFault>
    ensures read { Gives out-ExprEl result input.new
        ((slice (expression locals depth)).read input.old) }
    ensures context { input.new.context ≡ input.old.context }
{
    let of = get_boxed(alloc, input, locals, depth)?;
    let low = get_maybe(alloc, input, locals, depth)?;
    let high = get_maybe(alloc, input, locals, depth)?;
    let max = get_maybe(alloc, input, locals, depth)?;
    Ok(ExprEl::Slice { of, low, high, max })
}

#[cycle(expr)]
fn get_called(
    alloc: Global,
    input: &mut ElementIn<'_>,
    locals: u64,
    depth: u32,
) -> Result<(Boxed<ExprEl>, Items<ExprEl>), ElementFault>
    ensures read { Gives (λ x. (x.0, x.1)) result input.new
        ((seq (expression locals depth) (λ _. counted (expression locals depth))).read input.old) }
    ensures context { input.new.context ≡ input.old.context }
{
    let of = get_boxed(alloc, input, locals, depth)?;
    let args = get_expressions(alloc, input, locals, depth)?;
    Ok((of, args))
}

// Reads operations on one or two expressions.
#[cycle(expr)]
fn get_parts(
    alloc: Global,
    input: &mut ElementIn<'_>,
    locals: u64,
    depth: u32,
    code: u64,
) -> Result<ExprEl, ElementFault>
    ensures read { Gives out-ExprEl result input.new
        ((part_cases (expression locals depth) code).read input.old) }
    ensures context { input.new.context ≡ input.old.context }
{
    match code {
        6 => {
            let op = get_unary(input)?;
            let ty = get_outer(input)?;
            let of = get_boxed(alloc, input, locals, depth)?;
            Ok(ExprEl::Unary { op, ty, of })
        }
        7 => {
            let op = get_binary(input)?;
            let ty = get_outer(input)?;
            let (left, right) = get_two(alloc, input, locals, depth)?;
            Ok(ExprEl::Binary {
                op,
                ty,
                left,
                right,
            })
        }
        8 => {
            let ty = get_outer(input)?;
            let of = get_boxed(alloc, input, locals, depth)?;
            Ok(ExprEl::Convert { ty, of })
        }
        9 => {
            let sel = Sel::get(alloc, input)?;
            let of = get_boxed(alloc, input, locals, depth)?;
            Ok(ExprEl::Field { sel, of })
        }
        10 => {
            let (of, at) = get_two(alloc, input, locals, depth)?;
            Ok(ExprEl::Index { of, at })
        }
        11 => get_slice(alloc, input, locals, depth),
        12 => Ok(ExprEl::Deref(get_boxed(alloc, input, locals, depth)?)),
        13 => Ok(ExprEl::Addr(get_boxed(alloc, input, locals, depth)?)),
        _ => Err(bad_code(input.place())),
    }
}

// Reads literals and calls.
#[cycle(expr)]
fn get_lists(
    alloc: Global,
    input: &mut ElementIn<'_>,
    locals: u64,
    depth: u32,
    code: u64,
) -> Result<ExprEl, ElementFault>
    ensures read { Gives out-ExprEl result input.new
        ((list_cases (expression locals depth) code).read input.old) }
    ensures context { input.new.context ≡ input.old.context }
{
    match code {
        14 => {
            let ty = get_outer(input)?;
            let fields = get_sel_values(alloc, input, locals, depth)?;
            Ok(ExprEl::StructLit { ty, fields })
        }
        15 => {
            let ty = get_outer(input)?;
            let items = get_indexed_values(alloc, input, locals, depth)?;
            Ok(ExprEl::ListLit { ty, items })
        }
        16 => {
            let ty = get_outer(input)?;
            let entries = get_entries(alloc, input, locals, depth)?;
            Ok(ExprEl::MapLit { ty, entries })
        }
        17 => {
            let callee = CalleeEl::get(alloc, input)?;
            let args = get_expressions(alloc, input, locals, depth)?;
            Ok(ExprEl::Call { callee, args })
        }
        18 => {
            let ty = get_outer(input)?;
            let pointer = input.truth()?;
            let sel = Sel::get(alloc, input)?;
            let args = get_expressions(alloc, input, locals, depth)?;
            Ok(ExprEl::MethodCall {
                ty,
                pointer,
                sel,
                args,
            })
        }
        19 => {
            let sel = Sel::get(alloc, input)?;
            let (of, args) = get_called(alloc, input, locals, depth)?;
            Ok(ExprEl::DynCall { sel, of, args })
        }
        20 => {
            let entry = input.uint()?;
            let (of, args) = get_called(alloc, input, locals, depth)?;
            Ok(ExprEl::ParamCall { entry, of, args })
        }
        21 => {
            let (of, args) = get_called(alloc, input, locals, depth)?;
            Ok(ExprEl::ValueCall { of, args })
        }
        22 => {
            let function = get_builtin(input)?;
            let ty = get_maybe_type(input)?;
            let args = get_expressions(alloc, input, locals, depth)?;
            Ok(ExprEl::Builtin { function, ty, args })
        }
        _ => Err(bad_code(input.place())),
    }
}

// Reads assertions, and a map's index that tells whether it is there.
#[cycle(expr)]
fn get_tests(
    alloc: Global,
    input: &mut ElementIn<'_>,
    locals: u64,
    depth: u32,
    code: u64,
) -> Result<ExprEl, ElementFault>
    ensures read { Gives out-ExprEl result input.new
        ((test_cases (expression locals depth) code).read input.old) }
    ensures context { input.new.context ≡ input.old.context }
{
    match code {
        23 => {
            let ty = get_outer(input)?;
            let of = get_boxed(alloc, input, locals, depth)?;
            Ok(ExprEl::Assert { ty, of })
        }
        24 => {
            let (of, at) = get_two(alloc, input, locals, depth)?;
            Ok(ExprEl::OkIndex { of, at })
        }
        25 => {
            let ty = get_outer(input)?;
            let of = get_boxed(alloc, input, locals, depth)?;
            Ok(ExprEl::OkAssert { ty, of })
        }
        _ => Err(bad_code(input.place())),
    }
}

#[cycle(expr)]
fn get_expressions(
    alloc: Global,
    input: &mut ElementIn<'_>,
    locals: u64,
    depth: u32,
) -> Result<Items<ExprEl>, ElementFault>
    ensures read { Gives (λ v. v) result input.new
        ((counted (expression locals depth)).read input.old) }
    ensures context { input.new.context ≡ input.old.context }
{
    let count = input.uint()?;
    let mut list = Vec::new(alloc);
    'items: for _ in 0..count {
        let item = get_expression(alloc, input, locals, depth)?;
        list.push(item)?;
    }
    Ok(Items::from_vec(list))
}

#[cycle(expr)]
fn get_sel_value(
    alloc: Global,
    input: &mut ElementIn<'_>,
    locals: u64,
    depth: u32,
) -> Result<SelValue<ExprEl>, ElementFault>
    ensures read { Gives (λ v. v) result input.new
        ((sel_value (expression locals depth)).read input.old) }
    ensures context { input.new.context ≡ input.old.context }
{
    let sel = Sel::get(alloc, input)?;
    let value = get_expression(alloc, input, locals, depth)?;
    Ok(SelValue { sel, value })
}

#[cycle(expr)]
fn get_sel_values(
    alloc: Global,
    input: &mut ElementIn<'_>,
    locals: u64,
    depth: u32,
) -> Result<Items<SelValue<ExprEl>>, ElementFault>
    ensures read { Gives (λ v. v) result input.new
        ((counted (sel_value (expression locals depth))).read input.old) }
    ensures context { input.new.context ≡ input.old.context }
{
    let count = input.uint()?;
    let mut list = Vec::new(alloc);
    'items: for _ in 0..count {
        let item = get_sel_value(alloc, input, locals, depth)?;
        list.push(item)?;
    }
    Ok(Items::from_vec(list))
}

#[cycle(expr)]
fn get_indexed_value(
    alloc: Global,
    input: &mut ElementIn<'_>,
    locals: u64,
    depth: u32,
) -> Result<IndexedValue<ExprEl>, ElementFault>
    ensures read { Gives (λ v. v) result input.new
        ((indexed_value (expression locals depth)).read input.old) }
    ensures context { input.new.context ≡ input.old.context }
{
    let index = input.uint()?;
    let value = get_expression(alloc, input, locals, depth)?;
    Ok(IndexedValue { index, value })
}

#[cycle(expr)]
fn get_indexed_values(
    alloc: Global,
    input: &mut ElementIn<'_>,
    locals: u64,
    depth: u32,
) -> Result<Items<IndexedValue<ExprEl>>, ElementFault>
    ensures read { Gives (λ v. v) result input.new
        ((counted (indexed_value (expression locals depth))).read input.old) }
    ensures context { input.new.context ≡ input.old.context }
{
    let count = input.uint()?;
    let mut list = Vec::new(alloc);
    'items: for _ in 0..count {
        let item = get_indexed_value(alloc, input, locals, depth)?;
        list.push(item)?;
    }
    Ok(Items::from_vec(list))
}

#[cycle(expr)]
fn get_entry(
    alloc: Global,
    input: &mut ElementIn<'_>,
    locals: u64,
    depth: u32,
) -> Result<Entry<ExprEl>, ElementFault>
    ensures read { Gives (λ v. v) result input.new
        ((entry (expression locals depth)).read input.old) }
    ensures context { input.new.context ≡ input.old.context }
{
    let (key, value) = get_two(alloc, input, locals, depth)?;
    Ok(Entry {
        key: key.into_inner(),
        value: value.into_inner(),
    })
}

#[cycle(expr)]
fn get_entries(
    alloc: Global,
    input: &mut ElementIn<'_>,
    locals: u64,
    depth: u32,
) -> Result<Items<Entry<ExprEl>>, ElementFault>
    ensures read { Gives (λ v. v) result input.new
        ((counted (entry (expression locals depth))).read input.old) }
    ensures context { input.new.context ≡ input.old.context }
{
    let count = input.uint()?;
    let mut list = Vec::new(alloc);
    'items: for _ in 0..count {
        let item = get_entry(alloc, input, locals, depth)?;
        list.push(item)?;
    }
    Ok(Items::from_vec(list))
}
