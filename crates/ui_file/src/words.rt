use ui_base::{Items, Name, Text};

/// What the parts of a file say, by which its types and declarations are read: the Strings, the
/// file of each PosBase, the path of each Pkg, and the name of each Obj.
#[derive(Drop)]
pub struct FileWords {
    pub texts: Items<Text>,
    pub files: Items<Text>,
    pub paths: Items<Text>,
    pub names: Items<Name>,
}
