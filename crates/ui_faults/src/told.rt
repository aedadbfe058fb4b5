//! What is told of a fault, and texts put together.

use std::alloc::Global;
use ui_base::NoMemory;
use ui_pexpr::{Form, ParseFault};

#[derive(Clone, Copy)]
pub enum Told {
    Unexpected,
    TooDeep,
    Outside(Form),
}

pub const ARROW: Told = Told::Outside(Form::Arrow);

pub const CHAN: Told = Told::Outside(Form::Chan);

pub const DEFER: Told = Told::Outside(Form::Defer);

pub const ELLIPSIS: Told = Told::Outside(Form::Ellipsis);

pub const FALLTHROUGH: Told = Told::Outside(Form::Fallthrough);

pub const FUNC: Told = Told::Outside(Form::Func);

pub const GO: Told = Told::Outside(Form::Go);

pub const GOTO: Told = Told::Outside(Form::Goto);

pub const SELECT: Told = Told::Outside(Form::Select);

pub const TAG: Told = Told::Outside(Form::Tag);

pub const TYPE_WORD: Told = Told::Outside(Form::Type);

pub fn fault(told: Told, at: usize) -> ParseFault {
    match told {
        Told::Unexpected => ParseFault::Unexpected { at },
        Told::TooDeep => ParseFault::TooDeep { at },
        Told::Outside(form) => ParseFault::Outside { at, form },
    }
}

pub fn place_of(fault: ParseFault) -> usize {
    match fault {
        ParseFault::Unexpected { at } => at,
        ParseFault::TooDeep { at } => at,
        ParseFault::Outside { at, form: _ } => at,
        ParseFault::BadImportPath { at } => at,
        ParseFault::NoMemory => 0,
    }
}

pub fn joined(alloc: Global, parts: &[&str]) -> Result<Vec<u8>, NoMemory> {
    let mut text = Vec::new(alloc);
    for part in parts {
        text.extend_from_slice(part.as_bytes())?;
    }
    Ok(text)
}

pub fn put_each(text: &mut Vec<u8>, part: &str, count: usize) -> Result<(), NoMemory> {
    for _ in 0..count {
        text.extend_from_slice(part.as_bytes())?;
    }
    Ok(())
}
