// The sources of a package, and what is read of them.
ghost use Rattle.std.specs.Prelude.{◌≡◌};
ghost use Rattle.ui_sources.specs.Sources as spec;

use ui_tree::FileTree;

/// The most bytes of a source.
pub const SOURCE_LIMIT: usize = 1048576;

/// A source: its name in the store, and its bytes, or nothing where there are more than the limit.
#[derive(Drop)]
pub struct SourceFile {
    pub name: String,
    pub bytes: Option<Vec<u8>>,
}

/// The bytes of a package's sources together, and the trees of these in their order.
#[derive(Drop)]
pub struct Trees {
    pub size: usize,
    pub files: Vec<FileTree>,
}

impl SourceFile {
    /// The bytes, of which there are none where there are more than the limit.
    pub(crate) fn bytes(&self) -> &[u8]
        ensures { result.now ≡ spec.bytes_of (spec.source_of self.now) }
    {
        match &self.bytes {
            Some(bytes) => bytes.as_slice(),
            None => &[],
        }
    }

    /// Whether there are more bytes than the limit.
    pub(crate) fn is_long(&self) -> bool
        ensures { result ≡ spec.is_long (spec.source_of self.now).1 }
    {
        match &self.bytes {
            Some(bytes) => bytes.len() > SOURCE_LIMIT,
            None => true,
        }
    }
}
