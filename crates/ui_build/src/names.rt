// The names under which a package's files stand in a store.
ghost use Rattle.std.specs.Prelude.{◌≡◌, IfOk, string_bytes};
ghost use Rattle.ui_build.specs.Package as files;

use std::alloc::{AllocError, Global};

/// The folder of a package's sources.
pub fn folder(alloc: Global, path: &str) -> Result<String, AllocError>
    ensures { IfOk result (λ s. string_bytes s ≡ files.folder path.now) }
{
    format!(in alloc; "src/{path}")
}

/// A file in a folder.
pub fn file_in(alloc: Global, folder: &str, name: &str) -> Result<String, AllocError>
    ensures { IfOk result (λ s. string_bytes s ≡ files.file_in folder.now name.now) }
{
    format!(in alloc; "{folder}/{name}")
}

/// The unit file of a package.
pub fn unit_file(alloc: Global, path: &str) -> Result<String, AllocError>
    ensures { IfOk result (λ s. string_bytes s ≡ files.unit_file path.now) }
{
    format!(in alloc; "unit/{path}.u")
}

/// The linked file of a package.
pub fn linked_file(alloc: Global, path: &str) -> Result<String, AllocError>
    ensures { IfOk result (λ s. string_bytes s ≡ files.linked_file path.now) }
{
    format!(in alloc; "lib/{path}.u")
}

/// A name of its own with the same bytes.
pub fn copy(alloc: Global, name: &String) -> Result<String, AllocError>
    ensures { IfOk result (λ s. string_bytes s ≡ string_bytes name.now) }
{
    String::from_str(alloc, name.as_str())
}
