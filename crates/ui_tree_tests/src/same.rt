//! Equality of trees.

use std::alloc::Global;
use std::test::Fail;
use ui_base::{BinOp, NoMemory, Spot, Text, Value};
use ui_tree::{Boxed, ExprTree, Items, LiteralKind, Placed};

// A spot of this column.
fn at(col: u32) -> Spot {
    Spot { line: 1, col }
}

// A name at this column.
fn name(alloc: Global, col: u32, text: &[u8]) -> Result<ExprTree, NoMemory> {
    let text = Text::from_slice(alloc, text)?;
    Ok(ExprTree::Name(Placed {
        spot: at(col),
        text,
    }))
}

// Two names with an operator between, from this column on.
fn pair(alloc: Global, col: u32, op: BinOp) -> Result<Boxed<ExprTree>, NoMemory> {
    let left = Boxed::new(alloc, name(alloc, col, b"a")?)?;
    let right = Boxed::new(alloc, name(alloc, col, b"b")?)?;
    let spot = at(col);
    Boxed::new(
        alloc,
        ExprTree::Binary {
            spot,
            op,
            left,
            right,
        },
    )
}

// A call with this many arguments, the last with `...` or without.
fn call(alloc: Global, count: u32, spread: bool) -> Result<Boxed<ExprTree>, NoMemory> {
    let of = Boxed::new(alloc, name(alloc, 1, b"f")?)?;
    let mut args = Items::new(alloc);
    for col in 0..count {
        args.push(name(alloc, col, b"x")?)?;
    }
    let spot = at(1);
    Boxed::new(
        alloc,
        ExprTree::Call {
            spot,
            of,
            args,
            spread,
        },
    )
}

// A part of `a`, with a third bound of this name.
fn part(alloc: Global, most: &[u8]) -> Result<Boxed<ExprTree>, NoMemory> {
    let of = Boxed::new(alloc, name(alloc, 1, b"a")?)?;
    let high = Boxed::new(alloc, name(alloc, 3, b"i")?)?;
    let max = Boxed::new(alloc, name(alloc, 5, most)?)?;
    let spot = at(1);
    Boxed::new(
        alloc,
        ExprTree::Sliced {
            spot,
            of,
            low: None,
            high: Some(high),
            max: Some(max),
        },
    )
}

#[test]
fn spots_do_not_count(rt: HostRuntime) -> Result<(), Fail> {
    let alloc = rt.alloc();
    let sum = pair(alloc, 1, BinOp::Add)?;
    let moved = pair(alloc, 7, BinOp::Add)?;
    let difference = pair(alloc, 1, BinOp::Sub)?;
    assert!(rt; sum.get().same(moved.get()));
    assert!(rt; !sum.get().same(difference.get()));
    Ok(())
}

#[test]
fn arguments_count(rt: HostRuntime) -> Result<(), Fail> {
    let alloc = rt.alloc();
    let one = call(alloc, 1, false)?;
    let two = call(alloc, 2, false)?;
    let spread = call(alloc, 2, true)?;
    assert!(rt; two.get().same(two.get()));
    assert!(rt; !one.get().same(two.get()));
    assert!(rt; !two.get().same(one.get()));
    assert!(rt; !two.get().same(spread.get()));
    Ok(())
}

#[test]
fn bounds_count(rt: HostRuntime) -> Result<(), Fail> {
    let alloc = rt.alloc();
    let short = part(alloc, b"j")?;
    let long = part(alloc, b"k")?;
    assert!(rt; short.get().same(short.get()));
    assert!(rt; !short.get().same(long.get()));
    Ok(())
}

#[test]
fn numbers_count(rt: HostRuntime) {
    let one = ExprTree::literal(at(1), LiteralKind::Whole, Value::Whole(1));
    let two = ExprTree::literal(at(1), LiteralKind::Whole, Value::Whole(2));
    assert!(rt; one.same(&one));
    assert!(rt; !one.same(&two) && !two.same(&one));
}
