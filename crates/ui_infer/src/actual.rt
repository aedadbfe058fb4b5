use ui_types::TypeId;

/// An argument of a call: its number there, its type, and whether it counts as an untyped constant.
#[derive(Clone, Copy)]
pub struct Actual {
    pub index: u32,
    pub ty: TypeId,
    pub constant: bool,
}
