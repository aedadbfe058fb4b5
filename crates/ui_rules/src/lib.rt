//! The rules of checking as definitions: total functions on plain data, in `specs/`. It has no
//! code.
#![tactic(auto)]
