//! Operators, by their tokens.

ghost use Rattle.std.specs.Prelude.{◌≡◌};
ghost use Rattle.ui_grammar.specs.Operator as spec;

use ui_base::BinOp;
use ui_scan::TokenKind;
use ui_tree::PrefixOp;

/// The binary operator that a token is. Go specification, "Operators".
pub fn operator_of(kind: TokenKind) -> Option<BinOp>
    ensures { result ≡ spec.operator_of kind }
{
    match kind {
        TokenKind::Add => Some(BinOp::Add),
        TokenKind::Sub => Some(BinOp::Sub),
        TokenKind::Mul => Some(BinOp::Mul),
        TokenKind::Div => Some(BinOp::Div),
        TokenKind::Rem => Some(BinOp::Rem),
        TokenKind::And => Some(BinOp::And),
        TokenKind::Or => Some(BinOp::Or),
        TokenKind::Xor => Some(BinOp::Xor),
        TokenKind::AndNot => Some(BinOp::AndNot),
        TokenKind::Shl => Some(BinOp::Shl),
        TokenKind::Shr => Some(BinOp::Shr),
        TokenKind::Equal => Some(BinOp::Equal),
        TokenKind::NotEqual => Some(BinOp::NotEqual),
        TokenKind::Less => Some(BinOp::Less),
        TokenKind::LessEqual => Some(BinOp::LessEqual),
        TokenKind::Greater => Some(BinOp::Greater),
        TokenKind::GreaterEqual => Some(BinOp::GreaterEqual),
        TokenKind::LogicalAnd => Some(BinOp::LogicalAnd),
        TokenKind::LogicalOr => Some(BinOp::LogicalOr),
        _ => None,
    }
}

/// The unary operator that a token is. Go specification, "Operators".
pub fn prefix_of(kind: TokenKind) -> Option<PrefixOp>
    ensures { result ≡ spec.prefix_of kind }
{
    match kind {
        TokenKind::Add => Some(PrefixOp::Plus),
        TokenKind::Sub => Some(PrefixOp::Minus),
        TokenKind::Not => Some(PrefixOp::Not),
        TokenKind::Xor => Some(PrefixOp::Flip),
        TokenKind::Mul => Some(PrefixOp::Deref),
        TokenKind::And => Some(PrefixOp::Address),
        _ => None,
    }
}

/// The operator of an assignment such as `+=`. Go specification, "Assignment statements".
pub fn assignment_of(kind: TokenKind) -> Option<BinOp>
    ensures { result ≡ spec.assignment_of kind }
{
    match kind {
        TokenKind::AddAssign => Some(BinOp::Add),
        TokenKind::SubAssign => Some(BinOp::Sub),
        TokenKind::MulAssign => Some(BinOp::Mul),
        TokenKind::DivAssign => Some(BinOp::Div),
        TokenKind::RemAssign => Some(BinOp::Rem),
        TokenKind::AndAssign => Some(BinOp::And),
        TokenKind::OrAssign => Some(BinOp::Or),
        TokenKind::XorAssign => Some(BinOp::Xor),
        TokenKind::AndNotAssign => Some(BinOp::AndNot),
        TokenKind::ShlAssign => Some(BinOp::Shl),
        TokenKind::ShrAssign => Some(BinOp::Shr),
        _ => None,
    }
}

/// How tightly a binary operator binds, from 1, the weakest, to 5. Go specification, "Operator
/// precedence".
pub fn level_of(op: BinOp) -> u8
    ensures { result ≡ spec.level_of op }
{
    match op {
        BinOp::LogicalOr => 1,
        BinOp::LogicalAnd => 2,
        BinOp::Equal
        | BinOp::NotEqual
        | BinOp::Less
        | BinOp::LessEqual
        | BinOp::Greater
        | BinOp::GreaterEqual => 3,
        BinOp::Add | BinOp::Sub | BinOp::Or | BinOp::Xor => 4,
        BinOp::Mul
        | BinOp::Div
        | BinOp::Rem
        | BinOp::Shl
        | BinOp::Shr
        | BinOp::And
        | BinOp::AndNot => 5,
    }
}
