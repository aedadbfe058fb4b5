//! Inference of type arguments. Go specification, "Type inference".
#![tactic(auto, using(ui_types::specs::Trees::growth, ui_types::specs::Kept::keeping))]

mod actual;
mod arguments;
mod binding;
mod constants;
mod cores;
mod fault;
mod inference;
mod known;
mod laws;
mod pairs;
mod shape;
mod top;

pub use actual::Actual;
pub use fault::InferFault;
pub use inference::infer;
pub use laws::rounds_end;
