//! Calls of the readers of expressions, types and signatures, and what they answer.

use crate::told::{Told, fault};
use std::alloc::Global;
use std::process::Abort;
use std::test::Fail;
use ui_pexpr::{ParseFault, parse_expr, parse_sig, parse_type};
use ui_scan::{Token, tokens};
use ui_tree::{ExprTree, TypeExpr};

// What is read.
#[derive(Clone, Copy)]
pub enum Sort {
    Expr,
    Header,
    Type,
    Sig,
}

// A call: what is read, from which token on, and how deep what encloses it is.
#[derive(Clone, Copy)]
pub struct Call {
    pub sort: Sort,
    pub from: usize,
    pub depth: u32,
}

pub fn whole(sort: Sort) -> Call {
    Call {
        sort,
        from: 0,
        depth: 0,
    }
}

pub fn within(sort: Sort, depth: u32) -> Call {
    Call {
        sort,
        from: 0,
        depth,
    }
}

pub fn is_written(token: Token) -> bool {
    token.start < token.end
}

// How many tokens there are up to the last that is written.
pub fn count_written(tokens: &[Token]) -> usize {
    let mut count = 0;
    for (i, token) in tokens.iter().enumerate() {
        if is_written(*token) && i < tokens.len() {
            count = i + 1;
        }
    }
    count
}

fn of_expr(read: Result<(ExprTree, usize), ParseFault>) -> Result<usize, ParseFault> {
    match read {
        Ok((_, end)) => Ok(end),
        Err(fault) => Err(fault),
    }
}

fn of_type(read: Result<(TypeExpr, usize), ParseFault>) -> Result<usize, ParseFault> {
    match read {
        Ok((_, end)) => Ok(end),
        Err(fault) => Err(fault),
    }
}

// Where reading ends, and where the last token that is written does, or the fault.
pub fn answer(
    rt: &impl Abort,
    alloc: Global,
    call: Call,
    text: &[u8],
) -> Result<Result<(usize, usize), ParseFault>, Fail> {
    let Call { sort, from, depth } = call;
    assert!(rt; text.len() < 10000);
    assert!(rt; depth < 200);
    let found = tokens(alloc, text)?;
    let words = found.as_slice();
    assert!(rt; from <= words.len());
    let end = match sort {
        Sort::Expr => of_expr(parse_expr(alloc, text, words, from, false, depth)),
        Sort::Header => of_expr(parse_expr(alloc, text, words, from, true, depth)),
        Sort::Type => of_type(parse_type(alloc, text, words, from, depth)),
        Sort::Sig => of_type(parse_sig(alloc, text, words, from, depth)),
    };
    match end {
        Ok(end) => Ok(Ok((end, count_written(words)))),
        Err(fault) => Ok(Err(fault)),
    }
}

// The fault stands where the last part of the text begins.
pub fn expect_between(
    rt: &impl Abort,
    alloc: Global,
    call: Call,
    mut text: Vec<u8>,
    behind: &[u8],
    told: Told,
) -> Result<(), Fail> {
    let at = text.len();
    text.extend_from_slice(behind)?;
    match answer(rt, alloc, call, text.as_slice())? {
        Ok((end, _)) => panic!(rt; "{end}"),
        Err(found) => assert_eq!(rt; found, fault(told, at)),
    }
    Ok(())
}
