// The laws of the verdict on a file.
ghost use Rattle.std.specs.Prelude.{◌≡◌, ℕ, List};
ghost use Rattle.ui_frame.specs.Container.{Parts};
ghost use Rattle.ui_file.specs.Verdict.{FirstFault, IsValid};
ghost use Rattle.ui_file.specs.declared.bad.BadFile.{BadFile};
ghost use Rattle.ui_file.specs.declared.file.File.{File};
ghost use Rattle.ui_file.specs.declared.kind.FileKind.{FileKind};

/// A container passes or has one first fault, and not both: so the fault is told exactly where
/// one is, and it is the only
/// one that may be told.
pub fn one_verdict()
    ensures fault { (kind : FileKind) (path : List ℕ) (parts : Parts) (b c : BadFile)
        → FirstFault kind path parts b → FirstFault kind path parts c → b ≡ c }
    ensures file { (kind : FileKind) (path : List ℕ) (parts : Parts) (x y : File)
        → IsValid kind path parts x → IsValid kind path parts y → x ≡ y }
    ensures either { (kind : FileKind) (path : List ℕ) (parts : Parts) (x : File) (b : BadFile)
        → IsValid kind path parts x → FirstFault kind path parts b → ⊥ }
{}
