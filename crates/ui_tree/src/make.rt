//! Trees made of their parts.

ghost use Rattle.std.specs.Prelude.{◌≡◌, map};
ghost use Rattle.std.specs.Option.{option_map};
ghost use Rattle.ui_tree.specs.Tree as tree;
ghost use Rattle.ui_tree.specs.View.{view, type_view, kept, trees, types, groups, maybe};
ghost use Rattle.ui_tree.specs.View.{maybe_type, type_args, names, group_with};

use crate::expr::{ExprTree, TypeExpr};
use crate::part::{Group, LiteralKind, Placed, PrefixOp, Sig};
use sqlite_items::{Boxed, Items};
use ui_base::{BinOp, Spot, Value};

impl TypeExpr {
    #[tactic(auto, using(crate::specs::Views::seen_Named))]
    pub fn named(name: Placed, member: Option<Placed>, args: Option<Items<TypeExpr>>) -> TypeExpr
        ensures { type_view result ≡ tree.named name member
            (type_args (option_map (map type_view) args)) }
    {
        TypeExpr::Named { name, member, args }
    }

    #[tactic(auto, using(crate::specs::Views::seen_Func))]
    pub fn func(spot: Spot, sig: Sig<Boxed<TypeExpr>>) -> TypeExpr
        ensures { type_view result ≡ tree.func spot
            (groups kept (map (group_with type_view) sig.params))
            (maybe_type (option_map type_view sig.results)) }
    {
        TypeExpr::Func { spot, sig }
    }

    #[tactic(auto, using(crate::specs::Views::seen_Method))]
    pub fn method(name: Placed, sig: Sig<Boxed<TypeExpr>>) -> TypeExpr
        ensures { type_view result ≡ tree.method name
            (groups kept (map (group_with type_view) sig.params))
            (maybe_type (option_map type_view sig.results)) }
    {
        TypeExpr::Method { name, sig }
    }

    #[tactic(auto, using(crate::specs::Views::seen_Parenthesized))]
    pub fn parenthesized(spot: Spot, of: Boxed<TypeExpr>) -> TypeExpr
        ensures { type_view result ≡ tree.parenthesized spot (type_view of) }
    {
        TypeExpr::Parenthesized { spot, of }
    }

    #[tactic(auto, using(crate::specs::Views::seen_Pointer))]
    pub fn pointer(spot: Spot, of: Boxed<TypeExpr>) -> TypeExpr
        ensures { type_view result ≡ tree.pointer spot (type_view of) }
    {
        TypeExpr::Pointer { spot, of }
    }

    #[tactic(auto, using(crate::specs::Views::seen_Slice))]
    pub fn slice(spot: Spot, of: Boxed<TypeExpr>) -> TypeExpr
        ensures { type_view result ≡ tree.slice spot (type_view of) }
    {
        TypeExpr::Slice { spot, of }
    }

    #[tactic(auto, using(crate::specs::Views::seen_Array))]
    pub fn array(spot: Spot, len: Boxed<ExprTree>, of: Boxed<TypeExpr>) -> TypeExpr
        ensures { type_view result ≡ tree.array spot (view len) (type_view of) }
    {
        TypeExpr::Array { spot, len, of }
    }

    #[tactic(auto, using(crate::specs::Views::seen_Counted))]
    pub fn counted(spot: Spot, of: Boxed<TypeExpr>) -> TypeExpr
        ensures { type_view result ≡ tree.counted spot (type_view of) }
    {
        TypeExpr::Counted { spot, of }
    }

    #[tactic(auto, using(crate::specs::Views::seen_Map))]
    pub fn map(spot: Spot, key: Boxed<TypeExpr>, of: Boxed<TypeExpr>) -> TypeExpr
        ensures { type_view result ≡ tree.mapping spot (type_view key) (type_view of) }
    {
        TypeExpr::Map { spot, key, of }
    }

    #[tactic(auto, using(crate::specs::Views::seen_Tilde))]
    pub fn tilde(spot: Spot, of: Boxed<TypeExpr>) -> TypeExpr
        ensures { type_view result ≡ tree.tilde spot (type_view of) }
    {
        TypeExpr::Tilde { spot, of }
    }

    #[tactic(auto, using(crate::specs::Views::seen_Union))]
    pub fn union(spot: Spot, terms: Items<TypeExpr>) -> TypeExpr
        ensures { type_view result ≡ tree.union spot (types (map type_view terms)) }
    {
        TypeExpr::Union { spot, terms }
    }

    #[tactic(auto, using(crate::specs::Views::seen_Interface))]
    pub fn interface(spot: Spot, elems: Items<TypeExpr>) -> TypeExpr
        ensures { type_view result ≡ tree.interface spot (types (map type_view elems)) }
    {
        TypeExpr::Interface { spot, elems }
    }

    #[tactic(auto, using(crate::specs::Views::seen_Struct))]
    pub fn structure(spot: Spot, fields: Items<Group<Boxed<TypeExpr>>>) -> TypeExpr
        ensures { type_view result ≡ tree.struct spot
            (groups kept (map (group_with type_view) fields)) }
    {
        TypeExpr::Struct { spot, fields }
    }

    #[tactic(auto, using(crate::specs::Views::seen_Listed))]
    pub fn listed(spot: Spot, results: Items<Group<Boxed<TypeExpr>>>) -> TypeExpr
        ensures { type_view result ≡ tree.listed spot
            (groups kept (map (group_with type_view) results)) }
    {
        TypeExpr::Listed {
            spot,
            groups: results,
        }
    }
}

impl ExprTree {
    #[tactic(auto, using(crate::specs::Views::seen_Name))]
    pub fn name(name: Placed) -> ExprTree
        ensures { view result ≡ tree.name name }
    {
        ExprTree::Name(name)
    }

    #[tactic(auto, using(crate::specs::Views::seen_Type))]
    pub fn type_arg(of: Boxed<TypeExpr>) -> ExprTree
        ensures { view result ≡ tree.type_arg (type_view of) }
    {
        ExprTree::Type(of)
    }

    #[tactic(auto, using(crate::specs::Views::seen_Literal))]
    pub fn literal(spot: Spot, kind: LiteralKind, value: Value) -> ExprTree
        ensures { view result ≡ tree.literal spot kind value }
    {
        ExprTree::Literal { spot, kind, value }
    }

    #[tactic(auto, using(crate::specs::Views::seen_Paren))]
    pub fn paren(spot: Spot, of: Boxed<ExprTree>) -> ExprTree
        ensures { view result ≡ tree.paren spot (view of) }
    {
        ExprTree::Paren { spot, of }
    }

    #[tactic(auto, using(crate::specs::Views::seen_Convert))]
    pub fn convert(spot: Spot, to: Boxed<TypeExpr>, of: Boxed<ExprTree>) -> ExprTree
        ensures { view result ≡ tree.convert spot (type_view to) (view of) }
    {
        ExprTree::Convert { spot, to, of }
    }

    #[tactic(auto, using(crate::specs::Views::seen_Composite))]
    pub fn composite(spot: Spot, of: Boxed<TypeExpr>, elems: Items<ExprTree>) -> ExprTree
        ensures { view result ≡ tree.composite spot (type_view of) (trees (map view elems)) }
    {
        ExprTree::Composite { spot, of, elems }
    }

    #[tactic(auto, using(crate::specs::Views::seen_Elided))]
    pub fn elided(spot: Spot, elems: Items<ExprTree>) -> ExprTree
        ensures { view result ≡ tree.elided spot (trees (map view elems)) }
    {
        ExprTree::Elided { spot, elems }
    }

    #[tactic(auto, using(crate::specs::Views::seen_Keyed))]
    pub fn keyed(spot: Spot, key: Boxed<ExprTree>, value: Boxed<ExprTree>) -> ExprTree
        ensures { view result ≡ tree.keyed spot (view key) (view value) }
    {
        ExprTree::Keyed { spot, key, value }
    }

    #[tactic(auto, using(crate::specs::Views::seen_Instance))]
    pub fn instance(spot: Spot, of: Boxed<ExprTree>, args: Items<TypeExpr>) -> ExprTree
        ensures { view result ≡ tree.instance spot (view of) (types (map type_view args)) }
    {
        ExprTree::Instance { spot, of, args }
    }

    #[tactic(auto, using(crate::specs::Views::seen_Selector))]
    pub fn selector(spot: Spot, of: Boxed<ExprTree>, member: Placed) -> ExprTree
        ensures { view result ≡ tree.selector spot (view of) member }
    {
        ExprTree::Selector { spot, of, member }
    }

    #[tactic(auto, using(crate::specs::Views::seen_Assert))]
    pub fn assert(spot: Spot, of: Boxed<ExprTree>, to: Boxed<TypeExpr>) -> ExprTree
        ensures { view result ≡ tree.assert spot (view of) (type_view to) }
    {
        ExprTree::Assert { spot, of, to }
    }

    #[tactic(auto, using(crate::specs::Views::seen_Index))]
    pub fn index(spot: Spot, of: Boxed<ExprTree>, at: Boxed<ExprTree>) -> ExprTree
        ensures { view result ≡ tree.index spot (view of) (view at) }
    {
        ExprTree::Index { spot, of, at }
    }

    #[tactic(auto, using(crate::specs::Views::seen_Call))]
    pub fn call(spot: Spot, of: Boxed<ExprTree>, args: Items<ExprTree>, spread: bool) -> ExprTree
        ensures { view result ≡ tree.call spot (view of) (trees (map view args)) spread }
    {
        ExprTree::Call {
            spot,
            of,
            args,
            spread,
        }
    }

    #[tactic(auto, using(crate::specs::Views::seen_Unary))]
    pub fn unary(spot: Spot, op: PrefixOp, of: Boxed<ExprTree>) -> ExprTree
        ensures { view result ≡ tree.unary spot op (view of) }
    {
        ExprTree::Unary { spot, op, of }
    }

    #[tactic(auto, using(crate::specs::Views::seen_Binary))]
    pub fn binary(spot: Spot, op: BinOp, left: Boxed<ExprTree>, right: Boxed<ExprTree>) -> ExprTree
        ensures { view result ≡ tree.binary spot op (view left) (view right) }
    {
        ExprTree::Binary {
            spot,
            op,
            left,
            right,
        }
    }

    /// `x[low:high:max]`
    #[tactic(auto, using(crate::specs::Views::seen_Sliced))]
    pub fn sliced(
        spot: Spot,
        of: Boxed<ExprTree>,
        low: Option<Boxed<ExprTree>>,
        high: Option<Boxed<ExprTree>>,
        max: Option<Boxed<ExprTree>>,
    ) -> ExprTree
        ensures { view result ≡ tree.sliced spot (view of) (maybe (option_map view low))
            (maybe (option_map view high)) (maybe (option_map view max)) }
    {
        ExprTree::Sliced {
            spot,
            of,
            low,
            high,
            max,
        }
    }
}
