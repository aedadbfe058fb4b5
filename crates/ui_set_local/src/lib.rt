//! The laws that what types have and satisfy is local: it depends on the declarations of the names
//! that are mentioned, and on no others.
#![tactic(auto)]

mod laws;

pub use laws::{
    comparing_is_local, core_types_are_local, implementing_is_local, lookups_are_local,
    satisfying_is_local,
};
