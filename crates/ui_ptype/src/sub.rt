//! What was read: trees with the spot of their first word and their depth.

ghost use Rattle.std.specs.Prelude.{◌≡◌, IfOk, suc};
ghost use Rattle.ui_tree.specs.View.{view, type_view};
ghost use Rattle.ui_ptype.specs.Seen.{see, see_type, see_all, see_types, see_groups};
ghost use Rattle.ui_syntax.specs.Types.{of_type, add, only, empty, group};
ghost use Rattle.ui_syntax.specs.Exprs.{of_tree};

use std::alloc::{AllocError, Global};
use ui_base::{NoMemory, Spot};
use ui_tree::{Boxed, ExprTree, Group, Items, Placed, TypeExpr};

/// An expression, or a type alone where its site takes one.
#[derive(Drop)]
pub struct Sub {
    pub tree: Boxed<ExprTree>,
    pub spot: Spot,
    pub depth: u32,
}

/// A type.
#[derive(Drop)]
pub struct TypeSub {
    pub tree: Boxed<TypeExpr>,
    pub spot: Spot,
    pub depth: u32,
}

/// The elements of a literal, with the greatest depth.
#[derive(Drop)]
pub struct Subs {
    pub items: Items<ExprTree>,
    pub depth: u32,
}

/// Types, with the greatest depth.
#[derive(Drop)]
pub struct TypeSubs {
    pub items: Items<TypeExpr>,
    pub depth: u32,
}

/// Fields or parameters in groups with one type.
#[derive(Drop)]
pub struct Groups {
    pub items: Items<Group<Boxed<TypeExpr>>>,
    pub depth: u32,
}

/// The depth of a tree over parts so deep. No memory holds one that is deeper than numbers go.
pub fn deeper(depth: u32) -> Result<u32, NoMemory>
    ensures { IfOk result (λ d. d ≡ suc depth) }
{
    match depth.checked_add(1) {
        Some(deep) => Ok(deep),
        None => Err(AllocError),
    }
}

/// The tree of an expression with its spot and depth.
pub fn expr_sub(alloc: Global, tree: ExprTree, spot: Spot, depth: u32) -> Result<Sub, NoMemory>
    ensures { IfOk result (λ s. see s ≡ of_tree (view tree) spot depth) }
{
    Ok(Sub {
        tree: Boxed::new(alloc, tree)?,
        spot,
        depth,
    })
}

/// The tree of a type with its spot and depth.
pub fn type_sub(alloc: Global, tree: TypeExpr, spot: Spot, depth: u32) -> Result<TypeSub, NoMemory>
    ensures { IfOk result (λ s. see_type s ≡ of_type (type_view tree) spot depth) }
{
    Ok(TypeSub {
        tree: Boxed::new(alloc, tree)?,
        spot,
        depth,
    })
}

/// The tree of an expression over parts so deep, with its spot and its own depth.
pub fn expr_over(alloc: Global, tree: ExprTree, spot: Spot, depth: u32) -> Result<Sub, NoMemory>
    ensures { IfOk result (λ s. see s ≡ of_tree (view tree) spot (suc depth)) }
{
    let tree = Boxed::new(alloc, tree)?;
    let depth = deeper(depth)?;
    Ok(Sub { tree, spot, depth })
}

/// The tree of a type over parts so deep, with its spot and its own depth.
pub fn type_over(alloc: Global, tree: TypeExpr, spot: Spot, depth: u32) -> Result<TypeSub, NoMemory>
    ensures { IfOk result (λ s. see_type s ≡ of_type (type_view tree) spot (suc depth)) }
{
    let tree = Boxed::new(alloc, tree)?;
    let depth = deeper(depth)?;
    Ok(TypeSub { tree, spot, depth })
}

impl Subs {
    /// None yet.
    pub fn new(alloc: Global) -> Subs
        ensures { see_all result ≡ empty }
    {
        Subs {
            items: Items::new(alloc),
            depth: 0,
        }
    }

    /// One more, so deep.
    pub fn add(self, tree: Boxed<ExprTree>, depth: u32) -> Result<Subs, NoMemory>
        ensures { IfOk result (λ l. see_all l ≡ add (see_all self) (view tree) depth) }
    {
        let Subs {
            mut items,
            depth: deepest,
        } = self;
        items.push(tree.into_inner())?;
        Ok(Subs {
            items,
            depth: deepest.max(depth),
        })
    }
}

impl TypeSubs {
    /// None yet.
    pub fn new(alloc: Global) -> TypeSubs
        ensures { see_types result ≡ empty }
    {
        TypeSubs {
            items: Items::new(alloc),
            depth: 0,
        }
    }

    /// This type alone.
    pub fn only(alloc: Global, first: TypeSub) -> Result<TypeSubs, NoMemory>
        ensures { IfOk result (λ l. see_types l ≡ only (see_type first).tree first.depth) }
    {
        let TypeSub {
            tree,
            spot: _,
            depth,
        } = first;
        let mut items = Items::new(alloc);
        items.push(tree.into_inner())?;
        Ok(TypeSubs { items, depth })
    }

    /// One more type.
    pub fn add(self, next: TypeSub) -> Result<TypeSubs, NoMemory>
        ensures { IfOk result (λ l. see_types l
            ≡ add (see_types self) (see_type next).tree next.depth) }
    {
        let TypeSubs {
            mut items,
            depth: deepest,
        } = self;
        let TypeSub {
            tree,
            spot: _,
            depth,
        } = next;
        items.push(tree.into_inner())?;
        Ok(TypeSubs {
            items,
            depth: deepest.max(depth),
        })
    }
}

impl Groups {
    /// None yet.
    pub fn new(alloc: Global) -> Groups
        ensures { see_groups result ≡ empty }
    {
        Groups {
            items: Items::new(alloc),
            depth: 0,
        }
    }

    /// One more group: names with their type.
    pub fn add(self, names: Items<Placed>, of: TypeSub) -> Result<Groups, NoMemory>
        ensures { IfOk result (λ l. see_groups l
            ≡ add (see_groups self) (group names (see_type of).tree) of.depth) }
    {
        let Groups {
            mut items,
            depth: deepest,
        } = self;
        let TypeSub {
            tree,
            spot: _,
            depth,
        } = of;
        items.push(Group { names, of: tree })?;
        Ok(Groups {
            items,
            depth: deepest.max(depth),
        })
    }
}
