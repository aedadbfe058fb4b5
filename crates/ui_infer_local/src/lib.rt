//! The laws that inference is local: which type arguments a call has depends on the declarations of
//! the names that its types mention, and on no others.
#![tactic(auto)]

mod laws;

pub use laws::inference_is_local;
