// The sections of a container.
ghost use Rattle.std.specs.Prelude.{◌≡◌, ◌<◌};
ghost use Rattle.ui_frame.specs.Sections.{number_of};

/// A section of a container, by what its elements are.
#[derive(Clone, Copy, Debug, PartialEq, Eq)]
pub enum Section {
    /// Raw bytes: names, paths, texts.
    Str,
    /// The public and the private root.
    Meta,
    /// Source files, which positions refer to.
    PosBase,
    /// Packages.
    Pkg,
    /// The names of objects. The sections `Obj`, `ObjExt` and `ObjDict` go beside it.
    Name,
    /// Types.
    Types,
    /// Declarations.
    Obj,
    /// What the reader of a declaration alone doesn't need.
    ObjExt,
    /// Dictionaries of generic declarations.
    ObjDict,
    /// Checked bodies.
    Body,
}

impl Section {
    /// The section's number in a file, from 0 to 9.
    pub fn number(self) -> u32
        ensures value { result ≡ number_of self }
        ensures bound { result < 10 }
    {
        match self {
            Section::Str => 0,
            Section::Meta => 1,
            Section::PosBase => 2,
            Section::Pkg => 3,
            Section::Name => 4,
            Section::Types => 5,
            Section::Obj => 6,
            Section::ObjExt => 7,
            Section::ObjDict => 8,
            Section::Body => 9,
        }
    }
}
