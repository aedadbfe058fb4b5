//! Checked trees made of their parts.

ghost use Rattle.std.specs.Prelude.{◌≡◌, map, option_map};
ghost use Rattle.ui_core.specs.Checked as checked;
ghost use Rattle.ui_core.specs.View as seen;
ghost use Rattle.ui_core.specs.View.{view, stmt_view, body_view, clause_view, field_with};
ghost use Rattle.ui_core.specs.View.{item_with, entry_with, range_with};

use crate::callee::{BuiltinFn, Callee};
use crate::tree::{
    Body, Clause, Entry, Expr, Exprs, FieldValue, IndexedValue, Places, Stmt, Stmts,
};
use sqlite_items::{Boxed, Items};
use ui_base::{BinOp, Name, UnOp, Value};
use ui_types::{Ids, TypeId};

impl Expr {
    #[tactic(auto, using(crate::specs::Views::view_Const))]
    pub fn constant(ty: TypeId, value: Value) -> Expr
        ensures { view result ≡ checked.constant ty value }
    {
        Expr::Const { ty, value }
    }

    #[tactic(auto, using(crate::specs::Views::view_Nil))]
    pub fn nil(ty: TypeId) -> Expr
        ensures { view result ≡ checked.nil ty }
    {
        Expr::Nil(ty)
    }

    #[tactic(auto, using(crate::specs::Views::view_Zero))]
    pub fn zero(ty: TypeId) -> Expr
        ensures { view result ≡ checked.zero_value ty }
    {
        Expr::Zero(ty)
    }

    #[tactic(auto, using(crate::specs::Views::view_Local))]
    pub fn local(number: u32) -> Expr
        ensures { view result ≡ checked.local number }
    {
        Expr::Local(number)
    }

    #[tactic(auto, using(crate::specs::Views::view_Global))]
    pub fn global(name: Name, args: Ids) -> Expr
        ensures { view result ≡ checked.global name args }
    {
        Expr::Global { name, args }
    }

    #[tactic(auto, using(crate::specs::Views::view_Func))]
    pub fn func(callee: Callee) -> Expr
        ensures { view result ≡ checked.func (seen.called callee) }
    {
        Expr::Func(callee)
    }

    #[tactic(auto, using(crate::specs::Views::view_Unary))]
    pub fn unary(op: UnOp, ty: TypeId, of: Boxed<Expr>) -> Expr
        ensures { view result ≡ checked.unary op ty (view of) }
    {
        Expr::Unary { op, ty, of }
    }

    #[tactic(auto, using(crate::specs::Views::view_Binary))]
    pub fn binary(op: BinOp, ty: TypeId, left: Boxed<Expr>, right: Boxed<Expr>) -> Expr
        ensures { view result ≡ checked.binary op ty (view left) (view right) }
    {
        Expr::Binary {
            op,
            ty,
            left,
            right,
        }
    }

    #[tactic(auto, using(crate::specs::Views::view_Convert))]
    pub fn convert(ty: TypeId, of: Boxed<Expr>) -> Expr
        ensures { view result ≡ checked.convert ty (view of) }
    {
        Expr::Convert { ty, of }
    }

    #[tactic(auto, using(crate::specs::Views::view_Field))]
    pub fn field(name: Name, of: Boxed<Expr>) -> Expr
        ensures { view result ≡ checked.field name (view of) }
    {
        Expr::Field { name, of }
    }

    #[tactic(auto, using(crate::specs::Views::view_Index))]
    pub fn index(of: Boxed<Expr>, at: Boxed<Expr>) -> Expr
        ensures { view result ≡ checked.index (view of) (view at) }
    {
        Expr::Index { of, at }
    }

    #[tactic(auto, using(crate::specs::Views::view_Slice))]
    pub fn slice(
        of: Boxed<Expr>,
        low: Option<Boxed<Expr>>,
        high: Option<Boxed<Expr>>,
        max: Option<Boxed<Expr>>,
    ) -> Expr
        ensures { view result ≡ checked.slice (view of) (seen.maybe (option_map view low))
            (seen.maybe (option_map view high)) (seen.maybe (option_map view max)) }
    {
        Expr::Slice { of, low, high, max }
    }

    #[tactic(auto, using(crate::specs::Views::view_Deref))]
    pub fn deref(of: Boxed<Expr>) -> Expr
        ensures { view result ≡ checked.deref (view of) }
    {
        Expr::Deref(of)
    }

    #[tactic(auto, using(crate::specs::Views::view_Addr))]
    pub fn address(of: Boxed<Expr>) -> Expr
        ensures { view result ≡ checked.address (view of) }
    {
        Expr::Addr(of)
    }

    #[tactic(auto, using(crate::specs::Views::view_StructLit))]
    pub fn struct_literal(ty: TypeId, fields: Items<FieldValue<Expr>>) -> Expr
        ensures { view result ≡ checked.struct_literal ty
            (seen.field_values (map (field_with view) fields)) }
    {
        Expr::StructLit { ty, fields }
    }

    #[tactic(auto, using(crate::specs::Views::view_ListLit))]
    pub fn list_literal(ty: TypeId, items: Items<IndexedValue<Expr>>) -> Expr
        ensures { view result ≡ checked.list_literal ty
            (seen.indexed_values (map (item_with view) items)) }
    {
        Expr::ListLit { ty, items }
    }

    #[tactic(auto, using(crate::specs::Views::view_MapLit))]
    pub fn map_literal(ty: TypeId, entries: Items<Entry<Expr>>) -> Expr
        ensures { view result ≡ checked.map_literal ty
            (seen.entries (map (entry_with view) entries)) }
    {
        Expr::MapLit { ty, entries }
    }

    #[tactic(auto, using(crate::specs::Views::view_Call))]
    pub fn call(callee: Callee, args: Exprs) -> Expr
        ensures { view result ≡ checked.call (seen.called callee) (seen.exprs (map view args)) }
    {
        Expr::Call { callee, args }
    }

    #[tactic(auto, using(crate::specs::Views::view_MethodCall))]
    pub fn method_call(ty: TypeId, pointer: bool, name: Name, args: Exprs) -> Expr
        ensures { view result ≡ checked.method_call ty pointer name (seen.exprs (map view args)) }
    {
        Expr::MethodCall {
            ty,
            pointer,
            name,
            args,
        }
    }

    #[tactic(auto, using(crate::specs::Views::view_DynCall))]
    pub fn dynamic_call(name: Name, of: Boxed<Expr>, args: Exprs) -> Expr
        ensures { view result ≡ checked.dynamic_call name (view of) (seen.exprs (map view args)) }
    {
        Expr::DynCall { name, of, args }
    }

    #[tactic(auto, using(crate::specs::Views::view_ParamCall))]
    pub fn param_call(param: u32, method: Name, of: Boxed<Expr>, args: Exprs) -> Expr
        ensures { view result ≡ checked.param_call param method (view of)
            (seen.exprs (map view args)) }
    {
        Expr::ParamCall {
            param,
            method,
            of,
            args,
        }
    }

    #[tactic(auto, using(crate::specs::Views::view_ValueCall))]
    pub fn value_call(of: Boxed<Expr>, args: Exprs) -> Expr
        ensures { view result ≡ checked.value_call (view of) (seen.exprs (map view args)) }
    {
        Expr::ValueCall { of, args }
    }

    #[tactic(auto, using(crate::specs::Views::view_Builtin))]
    pub fn builtin(function: BuiltinFn, ty: Option<TypeId>, args: Exprs) -> Expr
        ensures { view result ≡ checked.builtin function ty (seen.exprs (map view args)) }
    {
        Expr::Builtin { function, ty, args }
    }

    #[tactic(auto, using(crate::specs::Views::view_Assert))]
    pub fn assert(ty: TypeId, of: Boxed<Expr>) -> Expr
        ensures { view result ≡ checked.assert ty (view of) }
    {
        Expr::Assert { ty, of }
    }

    #[tactic(auto, using(crate::specs::Views::view_OkIndex))]
    pub fn ok_index(of: Boxed<Expr>, at: Boxed<Expr>) -> Expr
        ensures { view result ≡ checked.ok_index (view of) (view at) }
    {
        Expr::OkIndex { of, at }
    }

    #[tactic(auto, using(crate::specs::Views::view_OkAssert))]
    pub fn ok_assert(ty: TypeId, of: Boxed<Expr>) -> Expr
        ensures { view result ≡ checked.ok_assert ty (view of) }
    {
        Expr::OkAssert { ty, of }
    }

    #[tactic(auto, using(crate::specs::Views::view_Inline))]
    pub fn inline(callee: Callee, args: Exprs, body: Boxed<Body>) -> Expr
        ensures { view result ≡ checked.inline (seen.called callee) (seen.exprs (map view args))
            (body_view body) }
    {
        Expr::Inline { callee, args, body }
    }
}

impl Stmt {
    #[tactic(auto, using(crate::specs::Views::stmt_Expr))]
    pub fn alone(of: Expr) -> Stmt
        ensures { stmt_view result ≡ checked.alone (view of) }
    {
        Stmt::Expr(of)
    }

    #[tactic(auto, using(crate::specs::Views::stmt_Define))]
    pub fn define(places: Items<Option<u32>>, values: Exprs) -> Stmt
        ensures { stmt_view result ≡ checked.define places (seen.exprs (map view values)) }
    {
        Stmt::Define { places, values }
    }

    #[tactic(auto, using(crate::specs::Views::stmt_Assign))]
    pub fn assign(places: Items<Option<Expr>>, values: Exprs) -> Stmt
        ensures { stmt_view result ≡ checked.assign
            (seen.assigned_all (map (option_map view) places)) (seen.exprs (map view values)) }
    {
        Stmt::Assign { places, values }
    }

    #[tactic(auto, using(crate::specs::Views::stmt_OpAssign))]
    pub fn op_assign(op: BinOp, place: Expr, value: Expr) -> Stmt
        ensures { stmt_view result ≡ checked.op_assign op (view place) (view value) }
    {
        Stmt::OpAssign { op, place, value }
    }

    #[tactic(auto, using(crate::specs::Views::stmt_Block))]
    pub fn block(stmts: Stmts) -> Stmt
        ensures { stmt_view result ≡ checked.block (seen.stmts (map stmt_view stmts)) }
    {
        Stmt::Block(stmts)
    }

    #[tactic(auto, using(crate::specs::Views::stmt_If))]
    pub fn branch(condition: Expr, then: Stmts, otherwise: Stmts) -> Stmt
        ensures { stmt_view result ≡ checked.branch (view condition)
            (seen.stmts (map stmt_view then)) (seen.stmts (map stmt_view otherwise)) }
    {
        Stmt::If {
            condition,
            then,
            otherwise,
        }
    }

    #[tactic(auto, using(crate::specs::Views::stmt_For))]
    pub fn loop_over(init: Stmts, condition: Option<Expr>, post: Stmts, body: Stmts) -> Stmt
        ensures { stmt_view result ≡ checked.loop (seen.stmts (map stmt_view init))
            (seen.maybe (option_map view condition)) (seen.stmts (map stmt_view post))
            (seen.stmts (map stmt_view body)) }
    {
        Stmt::For {
            init,
            condition,
            post,
            body,
        }
    }

    #[tactic(auto, using(crate::specs::Views::stmt_Range))]
    pub fn range(places: Places<Expr>, over: Expr, body: Stmts) -> Stmt
        ensures { stmt_view result ≡ checked.ranging (seen.range_of (range_with view places))
            (view over) (seen.stmts (map stmt_view body)) }
    {
        Stmt::Range { places, over, body }
    }

    #[tactic(auto, using(crate::specs::Views::stmt_Switch))]
    pub fn switch(on: Expr, clauses: Items<Clause>, default: Option<Stmts>) -> Stmt
        ensures { stmt_view result ≡ checked.switch (view on)
            (seen.clauses (map clause_view clauses))
            (seen.maybe_stmts (option_map (map stmt_view) default)) }
    {
        Stmt::Switch {
            on,
            clauses,
            default,
        }
    }

    #[tactic(auto, using(crate::specs::Views::stmt_Return))]
    pub fn returning(values: Exprs) -> Stmt
        ensures { stmt_view result ≡ checked.returning (seen.exprs (map view values)) }
    {
        Stmt::Return(values)
    }

    #[tactic(auto, using(crate::specs::Views::stmt_Break))]
    pub fn breaking() -> Stmt
        ensures { stmt_view result ≡ checked.breaking }
    {
        Stmt::Break
    }

    #[tactic(auto, using(crate::specs::Views::stmt_Continue))]
    pub fn continuing() -> Stmt
        ensures { stmt_view result ≡ checked.continuing }
    {
        Stmt::Continue
    }
}

impl Clause {
    #[tactic(auto, using(crate::specs::Views::clause_seen))]
    pub fn new(values: Exprs, stmts: Stmts) -> Clause
        ensures { clause_view result ≡ checked.clause (seen.exprs (map view values))
            (seen.stmts (map stmt_view stmts)) }
    {
        Clause { values, stmts }
    }
}

impl Body {
    #[tactic(auto, using(crate::specs::Views::body_seen))]
    pub fn new(params: u32, locals: Ids, results: Ids, stmts: Stmts) -> Body
        ensures { body_view result ≡ checked.body params locals results
            (seen.stmts (map stmt_view stmts)) }
    {
        Body {
            params,
            locals,
            results,
            stmts,
        }
    }
}
