/// What an Obj and an ObjExt are read by beside their own bytes. The other elements don't look at
/// it.
#[derive(Clone, Copy, Debug, PartialEq, Eq, Drop)]
pub struct Shape {
    /// The code in the Name of the same number.
    pub code: u32,
    /// The number of type parameters in the ObjDict of the same number, at most 2^32 - 1.
    pub params: u32,
    /// The number of methods in the Obj of the same number.
    pub methods: u32,
}
