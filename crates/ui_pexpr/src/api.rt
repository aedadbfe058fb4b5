//! The calls of other crates: a form from the front of tokens, or where none goes on.

ghost use Rattle.std.specs.Prelude.{◌≡◌, ◌+◌, ◌≤◌, ◌<◌, ◌-◌, IfOk, length, drop, nat_lt};
ghost use Rattle.ui_grammar.specs.Parse.{HasExpr, HasType, HasSig};
ghost use Rattle.ui_grammar.specs.Word.{words};
ghost use Rattle.ui_pexpr.specs.Answers.{Answers, leads, told_behind};
ghost use Rattle.ui_pexpr.specs.declared.fault.ParseFault.TheVariants.{NoMemory as no_memory};
ghost use Rattle.ui_parse.specs.declared.fault.ParseError.TheVariants.{Fault as a_fault};
ghost use Rattle.ui_pexpr.specs.Parsed.{Parsed, place};
ghost use Rattle.ui_scan.specs.Tokens.{Tokens};
ghost use Rattle.ui_syntax.specs.Read.{expr, type, sig as sig_of};
ghost use Rattle.ui_tree.specs.View.{view, type_view};

use crate::fault::ParseFault;
use crate::front::Front;
use std::alloc::{AllocError, Global};
use ui_base::NoMemory;
use ui_parse::{Cursor, ParseError};
use ui_pread::{expr_of_budget, sig, type_of_budget};
use ui_scan::Token;
use ui_tree::{ExprTree, TypeExpr};

/// The greatest depth of a tree.
const DEEPEST: u32 = 200;

/// How many levels more a second reading has, which tells what is too deep.
const FURTHER_LEVELS: u32 = 4;

/// A form that is read.
#[derive(Clone, Copy)]
pub(crate) enum Sought {
    Expr { header: bool },
    Type,
    Sig,
}

// Whether a reading that ended so, with so many words left, goes farther than to so many.
fn is_farther(end: ParseError, words: usize, left: usize) -> Result<bool, NoMemory>
    ensures { IfOk result (λ b. (end ≡ a_fault) × (b ≡ nat_lt words left)) }
{
    match end {
        ParseError::Fault => Ok(words < left),
        ParseError::NoMemory => Err(AllocError),
    }
}

// A file's tokens, and where reading begins.
#[derive(Drop)]
struct Reading<'a> {
    bytes: &'a [u8],
    tokens: &'a [Token],
    from: usize,
}

impl<'a> Reading<'a> {
    fn start(&self) -> Cursor<'a>
        requires scanned { Tokens self.now.bytes.now self.now.tokens.now }
        requires inside { self.now.from ≤ length self.now.tokens.now }
        ensures { result ≡ drop self.now.from (words self.now.bytes.now self.now.tokens.now) }
    {
        Cursor::at(self.bytes, self.tokens, self.from)
    }

    // How many tokens stand before those that are left.
    fn end(&self, left: usize) -> usize
        ensures { result ≡ length self.now.tokens.now - left }
    {
        self.tokens.len().saturating_sub(left)
    }

    // The fault where so many words are left, and where it is known whether a deeper form goes on
    // there.
    fn fault(&self, alloc: Global, left: usize, deep: bool) -> ParseFault
        requires scanned { Tokens self.now.bytes.now self.now.tokens.now }
        requires inside { self.now.from ≤ length self.now.tokens.now }
        ensures { (result ≡ no_memory → ⊥) → result
            ≡ told_behind self.now.bytes.now self.now.tokens.now self.now.from
            (length self.now.tokens.now - left - self.now.from) deep }
    {
        let front = Front {
            bytes: self.bytes,
            tokens: self.tokens,
            from: self.from,
            count: self.end(left).saturating_sub(self.from),
        };
        match front.fault(alloc, deep) {
            Ok(fault) => fault,
            Err(_) => ParseFault::NoMemory,
        }
    }

    // Whether a reading within this budget goes farther than to so many words that are left.
    #[tactic(auto, using(crate::proofs::Readings::farther_ok, crate::proofs::Readings::farther_fault))]
    fn leads(
        &self,
        alloc: Global,
        sought: Sought,
        budget: u32,
        left: usize,
    ) -> Result<bool, NoMemory>
        requires scanned { Tokens self.now.bytes.now self.now.tokens.now }
        requires inside { self.now.from ≤ length self.now.tokens.now }
        ensures { IfOk result (λ b. b ≡ leads sought budget
            (drop self.now.from (words self.now.bytes.now self.now.tokens.now)) left) }
    {
        let mut words = self.start();
        match sought {
            Sought::Expr { header } => match expr_of_budget(alloc, &mut words, budget, header) {
                Ok(_) => Ok(true),
                Err(fault) => is_farther(fault, words.left(), left),
            },
            Sought::Type => match type_of_budget(alloc, &mut words, budget) {
                Ok(_) => Ok(true),
                Err(fault) => is_farther(fault, words.left(), left),
            },
            Sought::Sig => match sig(alloc, &mut words, budget) {
                Ok(_) => Ok(true),
                Err(fault) => is_farther(fault, words.left(), left),
            },
        }
    }

    // The fault where a reading within the budget ended with so many words left.
    fn fault_of(&self, alloc: Global, sought: Sought, budget: u32, left: usize) -> ParseFault
        requires scanned { Tokens self.now.bytes.now self.now.tokens.now }
        requires inside { self.now.from ≤ length self.now.tokens.now }
        requires room { budget ≤ 200 }
        ensures { (result ≡ no_memory → ⊥) → result
            ≡ told_behind self.now.bytes.now self.now.tokens.now self.now.from
            (length self.now.tokens.now - left - self.now.from)
            (leads sought (budget + 4) (drop self.now.from
            (words self.now.bytes.now self.now.tokens.now)) left) }
    {
        match self.leads(alloc, sought, budget + FURTHER_LEVELS, left) {
            Ok(deep) => self.fault(alloc, left, deep),
            Err(_) => ParseFault::NoMemory,
        }
    }

    fn expr(
        &self,
        alloc: Global,
        header: bool,
        budget: u32,
    ) -> Result<(ExprTree, usize), ParseFault>
        requires scanned { Tokens self.now.bytes.now self.now.tokens.now }
        requires inside { self.now.from ≤ length self.now.tokens.now }
        requires room { budget ≤ 200 }
        ensures { Answers view self.now.bytes.now self.now.tokens.now self.now.from
            (expr budget header (drop self.now.from (words self.now.bytes.now self.now.tokens.now)))
            (expr (budget + 4) header (drop self.now.from
            (words self.now.bytes.now self.now.tokens.now))) result }
    {
        let mut words = self.start();
        match expr_of_budget(alloc, &mut words, budget, header) {
            Ok(found) => Ok((found.tree.into_inner(), self.end(words.left()))),
            Err(ParseError::NoMemory) => Err(ParseFault::NoMemory),
            Err(ParseError::Fault) => {
                Err(self.fault_of(alloc, Sought::Expr { header }, budget, words.left()))
            }
        }
    }

    fn type_expr(&self, alloc: Global, budget: u32) -> Result<(TypeExpr, usize), ParseFault>
        requires scanned { Tokens self.now.bytes.now self.now.tokens.now }
        requires inside { self.now.from ≤ length self.now.tokens.now }
        requires room { budget ≤ 200 }
        ensures { Answers type_view self.now.bytes.now self.now.tokens.now self.now.from
            (type budget (drop self.now.from (words self.now.bytes.now self.now.tokens.now)))
            (type (budget + 4) (drop self.now.from (words self.now.bytes.now self.now.tokens.now)))
            result }
    {
        let mut words = self.start();
        match type_of_budget(alloc, &mut words, budget) {
            Ok(found) => Ok((found.tree.into_inner(), self.end(words.left()))),
            Err(ParseError::NoMemory) => Err(ParseFault::NoMemory),
            Err(ParseError::Fault) => {
                Err(self.fault_of(alloc, Sought::Type, budget, words.left()))
            }
        }
    }

    fn sig_expr(&self, alloc: Global, budget: u32) -> Result<(TypeExpr, usize), ParseFault>
        requires scanned { Tokens self.now.bytes.now self.now.tokens.now }
        requires inside { self.now.from ≤ length self.now.tokens.now }
        requires room { budget ≤ 200 }
        ensures { Answers type_view self.now.bytes.now self.now.tokens.now self.now.from
            (sig_of budget (drop self.now.from (words self.now.bytes.now self.now.tokens.now)))
            (sig_of (budget + 4) (drop self.now.from
            (words self.now.bytes.now self.now.tokens.now))) result }
    {
        let mut words = self.start();
        match sig(alloc, &mut words, budget) {
            Ok(found) => Ok((found.tree.into_inner(), self.end(words.left()))),
            Err(ParseError::NoMemory) => Err(ParseFault::NoMemory),
            Err(ParseError::Fault) => {
                Err(self.fault_of(alloc, Sought::Sig, budget, words.left()))
            }
        }
    }
}

/// The expression that begins at a token, with the number of the token behind it: the longest list
/// of words from there with which an expression begins, where it is itself one. In a header braces
/// don't go on with a type's name. The depth is that of what the expression is a part of.
///
/// # Errors
///
/// Where that list is none, the fault stands at the word behind it: `TooDeep` where a deeper
/// expression, however deep, begins with that word too, else `Outside` where the word begins a form
/// without trees, else `Unexpected`. `BadImportPath` and the forms of files are never answered.
#[tactic(auto, using(crate::proofs::Answered::expr_parsed))]
pub fn parse_expr(
    alloc: Global,
    bytes: &[u8],
    tokens: &[Token],
    from: usize,
    header: bool,
    depth: u32,
) -> Result<(ExprTree, usize), ParseFault>
    requires scanned { Tokens bytes.now tokens.now }
    requires inside { from ≤ length tokens.now }
    requires room { depth < 200 }
    ensures { Parsed view (HasExpr (place header)) (200 - depth) bytes.now tokens.now from result }
{
    Reading {
        bytes,
        tokens,
        from,
    }
    .expr(alloc, header, DEEPEST - depth)
}

/// The type that begins at a token, likewise.
///
/// # Errors
///
/// Likewise, of types.
#[tactic(auto, using(crate::proofs::Answered::type_parsed))]
pub fn parse_type(
    alloc: Global,
    bytes: &[u8],
    tokens: &[Token],
    from: usize,
    depth: u32,
) -> Result<(TypeExpr, usize), ParseFault>
    requires scanned { Tokens bytes.now tokens.now }
    requires inside { from ≤ length tokens.now }
    requires room { depth < 200 }
    ensures { Parsed type_view HasType (200 - depth) bytes.now tokens.now from result }
{
    Reading {
        bytes,
        tokens,
        from,
    }
    .type_expr(alloc, DEEPEST - depth)
}

/// The signature that begins at a token, likewise, as the func type of it.
///
/// # Errors
///
/// Likewise, of signatures.
#[tactic(auto, using(crate::proofs::Answered::sig_parsed))]
pub fn parse_sig(
    alloc: Global,
    bytes: &[u8],
    tokens: &[Token],
    from: usize,
    depth: u32,
) -> Result<(TypeExpr, usize), ParseFault>
    requires scanned { Tokens bytes.now tokens.now }
    requires inside { from ≤ length tokens.now }
    requires room { depth < 200 }
    ensures { Parsed type_view HasSig (200 - depth) bytes.now tokens.now from result }
{
    Reading {
        bytes,
        tokens,
        from,
    }
    .sig_expr(alloc, DEEPEST - depth)
}
