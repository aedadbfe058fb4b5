//! Laws, each a function whose contract is the statement.

ghost use Rattle.ui_infer_local.specs.Laws.{InferenceAgrees, InferenceStaysWithin};

/// Take a set of names that holds what the core types, the formal types, the arguments' types and
/// the explicit arguments mention, and what the declarations of its own names mention. Two
/// environments that declare the names of the set alike infer alike: the same type arguments, or
/// one fault. The type arguments mention only names of the set.
pub fn inference_is_local()
    ensures same { InferenceAgrees }
    ensures within { InferenceStaysWithin }
{}
