//! The rules of types as they are written and of what declarations make of their names, as
//! definitions: total functions on plain data, in `specs/`. It has no code.
#![tactic(auto)]
