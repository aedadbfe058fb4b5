//! The trees of types and signatures, from tokens: all but the expressions in them, which function
//! values read.
#![tactic(auto)]

mod cover;
mod ends;
mod entries;
mod grammar;
mod nested;
mod params;
mod signatures;
mod structs;
mod sub;
mod type_names;
mod types;
mod unions;

pub use cover::{
    has_literals, into_type, into_type_alone, is_counted, is_named_type, is_type, is_type_alone,
};
pub use entries::cover_type;
pub use grammar::Grammar;
pub use nested::{Ask, Got};
pub use structs::name_list;
pub use sub::{
    Groups, Sub, Subs, TypeSub, TypeSubs, deeper, expr_over, expr_sub, type_over, type_sub,
};
