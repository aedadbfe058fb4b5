ghost use Rattle.std.specs.Prelude.{◌≡◌, nat_lt, if◌then◌else◌, Some, None};
ghost use Rattle.ui_strpos.specs.Reading.{Gives};
ghost use Rattle.ui_eexpr.specs.Codes as codes;

use ui_base::{BinOp, UnOp};
use ui_core::BuiltinFn;
use ui_strpos::{Cause, ElementFault, ElementIn};

pub(crate) fn bad_code(offset: usize) -> ElementFault
    ensures { result ≡ ElementFault.Bad offset Cause.BadCode }
{
    ElementFault::Bad {
        offset,
        cause: Cause::BadCode,
    }
}

/// The code of a unary operator.
pub fn unary_code(op: UnOp) -> u64
    ensures { result ≡ codes.unary_code op }
{
    match op {
        UnOp::Neg => 0,
        UnOp::Flip => 1,
        UnOp::Not => 2,
    }
}

fn unary_of(code: u64) -> Option<UnOp>
    ensures { result ≡ (if nat_lt code 3 then Some (codes.unary_of code) else None) }
{
    match code {
        0 => Some(UnOp::Neg),
        1 => Some(UnOp::Flip),
        2 => Some(UnOp::Not),
        _ => None,
    }
}

/// Reads the code of a unary operator.
pub fn get_unary(input: &mut ElementIn<'_>) -> Result<UnOp, ElementFault>
    ensures read { Gives (λ v. v) result input.new (codes.unary.read input.old) }
    ensures context { input.new.context ≡ input.old.context }
{
    let offset = input.place();
    match unary_of(input.uint()?) {
        Some(value) => Ok(value),
        None => Err(bad_code(offset)),
    }
}

/// The code of a binary operator.
pub fn binary_code(op: BinOp) -> u64
    ensures { result ≡ codes.binary_code op }
{
    match op {
        BinOp::Add => 0,
        BinOp::Sub => 1,
        BinOp::Mul => 2,
        BinOp::Div => 3,
        BinOp::Rem => 4,
        BinOp::And => 5,
        BinOp::Or => 6,
        BinOp::Xor => 7,
        BinOp::AndNot => 8,
        BinOp::Shl => 9,
        BinOp::Shr => 10,
        BinOp::Equal => 11,
        BinOp::NotEqual => 12,
        BinOp::Less => 13,
        BinOp::LessEqual => 14,
        BinOp::Greater => 15,
        BinOp::GreaterEqual => 16,
        BinOp::LogicalAnd => 17,
        BinOp::LogicalOr => 18,
    }
}

fn binary_of(code: u64) -> Option<BinOp>
    ensures { result ≡ (if nat_lt code 19 then Some (codes.binary_of code) else None) }
{
    match code {
        0 => Some(BinOp::Add),
        1 => Some(BinOp::Sub),
        2 => Some(BinOp::Mul),
        3 => Some(BinOp::Div),
        4 => Some(BinOp::Rem),
        5 => Some(BinOp::And),
        6 => Some(BinOp::Or),
        7 => Some(BinOp::Xor),
        8 => Some(BinOp::AndNot),
        9 => Some(BinOp::Shl),
        10 => Some(BinOp::Shr),
        11 => Some(BinOp::Equal),
        12 => Some(BinOp::NotEqual),
        13 => Some(BinOp::Less),
        14 => Some(BinOp::LessEqual),
        15 => Some(BinOp::Greater),
        16 => Some(BinOp::GreaterEqual),
        17 => Some(BinOp::LogicalAnd),
        18 => Some(BinOp::LogicalOr),
        _ => None,
    }
}

/// Reads the code of a binary operator.
pub fn get_binary(input: &mut ElementIn<'_>) -> Result<BinOp, ElementFault>
    ensures read { Gives (λ v. v) result input.new (codes.binary.read input.old) }
    ensures context { input.new.context ≡ input.old.context }
{
    let offset = input.place();
    match binary_of(input.uint()?) {
        Some(value) => Ok(value),
        None => Err(bad_code(offset)),
    }
}

/// The code of a predeclared function.
pub fn builtin_code(function: BuiltinFn) -> u64
    ensures { result ≡ codes.builtin_code function }
{
    match function {
        BuiltinFn::Append => 0,
        BuiltinFn::AppendSpread => 1,
        BuiltinFn::Cap => 2,
        BuiltinFn::Copy => 3,
        BuiltinFn::Delete => 4,
        BuiltinFn::Len => 5,
        BuiltinFn::Make => 6,
        BuiltinFn::Max => 7,
        BuiltinFn::Min => 8,
        BuiltinFn::New => 9,
        BuiltinFn::Panic => 10,
    }
}

fn builtin_of(code: u64) -> Option<BuiltinFn>
    ensures { result ≡ (if nat_lt code 11 then Some (codes.builtin_of code) else None) }
{
    match code {
        0 => Some(BuiltinFn::Append),
        1 => Some(BuiltinFn::AppendSpread),
        2 => Some(BuiltinFn::Cap),
        3 => Some(BuiltinFn::Copy),
        4 => Some(BuiltinFn::Delete),
        5 => Some(BuiltinFn::Len),
        6 => Some(BuiltinFn::Make),
        7 => Some(BuiltinFn::Max),
        8 => Some(BuiltinFn::Min),
        9 => Some(BuiltinFn::New),
        10 => Some(BuiltinFn::Panic),
        _ => None,
    }
}

/// Reads the code of a predeclared function.
pub fn get_builtin(input: &mut ElementIn<'_>) -> Result<BuiltinFn, ElementFault>
    ensures read { Gives (λ v. v) result input.new (codes.builtin.read input.old) }
    ensures context { input.new.context ≡ input.old.context }
{
    let offset = input.place();
    match builtin_of(input.uint()?) {
        Some(value) => Ok(value),
        None => Err(bad_code(offset)),
    }
}
