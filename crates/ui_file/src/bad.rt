use ui_strpos::Cause;

/// The first test of a file that fails: its cause, and its place, by the section's number, the
/// element's number in it and an offset in the element's bytes.
#[derive(Clone, Copy, Debug, PartialEq, Eq, Drop)]
pub struct BadFile {
    pub section: u32,
    pub element: u32,
    pub offset: u64,
    pub cause: Cause,
}
