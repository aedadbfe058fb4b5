//! Equality of trees but for their spots.

ghost use Rattle.std.specs.Prelude.{◌≡◌, ◌↔◌, IsTrue, map};
ghost use Rattle.std.specs.Option.{option_map};
ghost use Rattle.ui_tree.specs.View.{shape, type_shape, forgotten, placed, placed_maybe, names};
ghost use Rattle.ui_tree.specs.View.{maybe, maybe_type, trees, types, groups, group_with};

use crate::expr::{ExprTree, TypeExpr};
use crate::part::{Group, Placed};
use sqlite_items::Boxed;
use ui_base::Value;

fn same_value(a: &Value, b: &Value) -> bool
    ensures { IsTrue result ↔ (a.now ≡ b.now) }
{
    match a {
        Value::Whole(x) => match b {
            Value::Whole(y) => x == y,
            _ => false,
        },
        Value::Str(x) => match b {
            Value::Str(y) => x.bytes() == y.bytes(),
            _ => false,
        },
        Value::Truth(x) => match b {
            Value::Truth(y) => x == y,
            _ => false,
        },
    }
}

fn same_name(a: &Placed, b: &Placed) -> bool
    ensures { IsTrue result ↔ (placed forgotten a.now ≡ placed forgotten b.now) }
{
    a.text.bytes() == b.text.bytes()
}

fn same_member(a: &Option<Placed>, b: &Option<Placed>) -> bool
    ensures { IsTrue result ↔ (placed_maybe forgotten a.now ≡ placed_maybe forgotten b.now) }
{
    match a {
        None => b.is_none(),
        Some(x) => match b {
            None => false,
            Some(y) => same_name(x, y),
        },
    }
}

fn same_names(a: &[Placed], b: &[Placed]) -> bool
    ensures { IsTrue result ↔ (names forgotten a.now ≡ names forgotten b.now) }
{
    if a.len() != b.len() {
        return false;
    }
    for i in 0..a.len() {
        if !same_name(&a[i], &b[i]) {
            return false;
        }
    }
    true
}

#[cycle(same)]
fn same_maybe(a: &Option<Boxed<ExprTree>>, b: &Option<Boxed<ExprTree>>) -> bool
    ensures { IsTrue result ↔ (maybe (option_map shape a.now) ≡ maybe (option_map shape b.now)) }
{
    match a {
        None => b.is_none(),
        Some(x) => match b {
            None => false,
            Some(y) => x.get().same(y.get()),
        },
    }
}

#[cycle(same)]
fn same_trees(a: &[ExprTree], b: &[ExprTree]) -> bool
    ensures { IsTrue result ↔ (trees (map shape a.now) ≡ trees (map shape b.now)) }
{
    if a.len() != b.len() {
        return false;
    }
    for i in 0..a.len() {
        if !a[i].same(&b[i]) {
            return false;
        }
    }
    true
}

#[cycle(same)]
fn same_types(a: &[TypeExpr], b: &[TypeExpr]) -> bool
    ensures { IsTrue result ↔ (types (map type_shape a.now) ≡ types (map type_shape b.now)) }
{
    if a.len() != b.len() {
        return false;
    }
    for i in 0..a.len() {
        if !a[i].same(&b[i]) {
            return false;
        }
    }
    true
}

#[cycle(same)]
fn same_maybe_type(a: &Option<Boxed<TypeExpr>>, b: &Option<Boxed<TypeExpr>>) -> bool
    ensures { IsTrue result ↔ (maybe_type (option_map type_shape a.now)
        ≡ maybe_type (option_map type_shape b.now)) }
{
    match a {
        None => b.is_none(),
        Some(x) => match b {
            None => false,
            Some(y) => x.get().same(y.get()),
        },
    }
}

#[cycle(same)]
fn same_groups(a: &[Group<Boxed<TypeExpr>>], b: &[Group<Boxed<TypeExpr>>]) -> bool
    ensures { IsTrue result ↔ (groups forgotten (map (group_with type_shape) a.now)
        ≡ groups forgotten (map (group_with type_shape) b.now)) }
{
    if a.len() != b.len() {
        return false;
    }
    for i in 0..a.len() {
        if !same_names(a[i].names.as_slice(), b[i].names.as_slice()) {
            return false;
        }
        if !a[i].of.get().same(b[i].of.get()) {
            return false;
        }
    }
    true
}

impl TypeExpr {
    /// Whether the types are equal but for their spots.
    #[cycle(same)]
    #[tactic(auto, using(std::proofs::lemmas::Grind::common_steps, crate::specs::Views::type_variants))]
    pub fn same(&self, other: &TypeExpr) -> bool
        ensures { IsTrue result ↔ (type_shape self.now ≡ type_shape other.now) }
    {
        match self {
            TypeExpr::Named {
                name: a,
                member: c,
                args: e,
            } => match other {
                TypeExpr::Named {
                    name: b,
                    member: d,
                    args: f,
                } => same_name(a, b)
                    && same_member(c, d)
                    && match e {
                        None => f.is_none(),
                        Some(x) => match f {
                            None => false,
                            Some(y) => same_types(x.as_slice(), y.as_slice())
                        }
                    },
                _ => false,
            },
            TypeExpr::Parenthesized { of: a, .. } => match other {
                TypeExpr::Parenthesized { of: b, .. } => a.get().same(b.get()),
                _ => false,
            },
            TypeExpr::Pointer { of: a, .. } => match other {
                TypeExpr::Pointer { of: b, .. } => a.get().same(b.get()),
                _ => false,
            },
            TypeExpr::Slice { of: a, .. } => match other {
                TypeExpr::Slice { of: b, .. } => a.get().same(b.get()),
                _ => false,
            },
            TypeExpr::Array { len: a, of: c, .. } => match other {
                TypeExpr::Array { len: b, of: d, .. } => a.get().same(b.get())
                    && c.get().same(d.get()),
                _ => false,
            },
            TypeExpr::Counted { of: a, .. } => match other {
                TypeExpr::Counted { of: b, .. } => a.get().same(b.get()),
                _ => false,
            },
            TypeExpr::Map { key: a, of: c, .. } => match other {
                TypeExpr::Map { key: b, of: d, .. } => a.get().same(b.get())
                    && c.get().same(d.get()),
                _ => false,
            },
            TypeExpr::Func { sig: a, .. } => match other {
                TypeExpr::Func { sig: b, .. } => same_groups(
                    a.params.as_slice(),
                    b.params.as_slice(),
                ) && same_maybe_type(&a.results, &b.results),
                _ => false,
            },
            TypeExpr::Listed { groups: a, .. } => match other {
                TypeExpr::Listed { groups: b, .. } => same_groups(a.as_slice(), b.as_slice()),
                _ => false,
            },
            TypeExpr::Struct { fields: a, .. } => match other {
                TypeExpr::Struct { fields: b, .. } => same_groups(a.as_slice(), b.as_slice()),
                _ => false,
            },
            TypeExpr::Interface { elems: a, .. } => match other {
                TypeExpr::Interface { elems: b, .. } => same_types(a.as_slice(), b.as_slice()),
                _ => false,
            },
            TypeExpr::Method { name: a, sig: c } => match other {
                TypeExpr::Method { name: b, sig: d } => same_name(a, b)
                    && same_groups(c.params.as_slice(), d.params.as_slice())
                    && same_maybe_type(&c.results, &d.results),
                _ => false,
            },
            TypeExpr::Union { terms: a, .. } => match other {
                TypeExpr::Union { terms: b, .. } => same_types(a.as_slice(), b.as_slice()),
                _ => false,
            },
            TypeExpr::Tilde { of: a, .. } => match other {
                TypeExpr::Tilde { of: b, .. } => a.get().same(b.get()),
                _ => false,
            },
        }
    }
}

impl ExprTree {
    /// Whether the expressions are equal but for their spots.
    #[cycle(same)]
    #[tactic(auto, using(std::proofs::lemmas::Grind::common_steps, crate::specs::Views::variants))]
    pub fn same(&self, other: &ExprTree) -> bool
        ensures { IsTrue result ↔ (shape self.now ≡ shape other.now) }
    {
        match self {
            ExprTree::Literal {
                kind: a,
                value: c,
                ..
            } => match other {
                ExprTree::Literal {
                    kind: b,
                    value: d,
                    ..
                } => a == b && same_value(c, d),
                _ => false,
            },
            ExprTree::Name(a) => match other {
                ExprTree::Name(b) => same_name(a, b),
                _ => false,
            },
            ExprTree::Paren { of: a, .. } => match other {
                ExprTree::Paren { of: b, .. } => a.get().same(b.get()),
                _ => false,
            },
            ExprTree::Convert { to: a, of: c, .. } => match other {
                ExprTree::Convert { to: b, of: d, .. } => a.get().same(b.get())
                    && c.get().same(d.get()),
                _ => false,
            },
            ExprTree::Composite {
                of: a,
                elems: c,
                ..
            } => match other {
                ExprTree::Composite {
                    of: b,
                    elems: d,
                    ..
                } => a.get().same(b.get()) && same_trees(c.as_slice(), d.as_slice()),
                _ => false,
            },
            ExprTree::Elided { elems: a, .. } => match other {
                ExprTree::Elided { elems: b, .. } => same_trees(a.as_slice(), b.as_slice()),
                _ => false,
            },
            ExprTree::Keyed {
                key: a,
                value: c,
                ..
            } => match other {
                ExprTree::Keyed {
                    key: b,
                    value: d,
                    ..
                } => a.get().same(b.get()) && c.get().same(d.get()),
                _ => false,
            },
            ExprTree::Instance { of: a, args: c, .. } => match other {
                ExprTree::Instance { of: b, args: d, .. } => a.get().same(b.get())
                    && same_types(c.as_slice(), d.as_slice()),
                _ => false,
            },
            ExprTree::Selector {
                of: a,
                member: c,
                ..
            } => match other {
                ExprTree::Selector {
                    of: b,
                    member: d,
                    ..
                } => a.get().same(b.get()) && same_name(c, d),
                _ => false,
            },
            ExprTree::Assert { of: a, to: c, .. } => match other {
                ExprTree::Assert { of: b, to: d, .. } => a.get().same(b.get())
                    && c.get().same(d.get()),
                _ => false,
            },
            ExprTree::Index { of: a, at: c, .. } => match other {
                ExprTree::Index { of: b, at: d, .. } => a.get().same(b.get())
                    && c.get().same(d.get()),
                _ => false,
            },
            ExprTree::Sliced {
                of: a,
                low: c,
                high: e,
                max: g,
                ..
            } => match other {
                ExprTree::Sliced {
                    of: b,
                    low: d,
                    high: f,
                    max: h,
                    ..
                } => a.get().same(b.get())
                    && (same_maybe(c, d) && (same_maybe(e, f) && same_maybe(g, h))),
                _ => false,
            },
            ExprTree::Call {
                of: a,
                args: c,
                spread: e,
                ..
            } => match other {
                ExprTree::Call {
                    of: b,
                    args: d,
                    spread: f,
                    ..
                } => a.get().same(b.get()) && same_trees(c.as_slice(), d.as_slice()) && e == f,
                _ => false,
            },
            ExprTree::Type(a) => match other {
                ExprTree::Type(b) => a.get().same(b.get()),
                _ => false,
            },
            ExprTree::Unary { op: a, of: c, .. } => match other {
                ExprTree::Unary { op: b, of: d, .. } => a == b && c.get().same(d.get()),
                _ => false,
            },
            ExprTree::Binary {
                op: a,
                left: c,
                right: e,
                ..
            } => match other {
                ExprTree::Binary {
                    op: b,
                    left: d,
                    right: f,
                    ..
                } => a == b && c.get().same(d.get()) && e.get().same(f.get()),
                _ => false,
            },
        }
    }
}
