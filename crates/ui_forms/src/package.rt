// Whether sources are those of a package.
ghost use Rattle.std.specs.Prelude.{◌≡◌, map};
ghost use Rattle.std.specs.List.{list_all};
ghost use Rattle.ui_forms.specs.Form as form;
ghost use Rattle.ui_forms.specs.Form.{source_of};

use crate::words::is_package_name;
use ui_base::is_path;
use ui_tree::FileTree;

/// The most bytes of the sources of a package, and the most declarations.
const SIZE_LIMIT: usize = 4096;

/// The most bytes of a source's store name.
const FILE_LIMIT: usize = 255;

// Whether a source is one of a package of this path.
fn is_source(path: &[u8], file: &FileTree) -> bool
    ensures { result ≡ form.is_source path.now (source_of file.now) }
{
    let name = file.file.bytes();
    !name.is_empty() && name.len() <= FILE_LIMIT && is_package_name(path, file.package.text.bytes())
}

// Whether all are.
fn are_sources(path: &[u8], files: &[FileTree]) -> bool
    ensures { result ≡ list_all (form.is_source path.now) (map source_of files.now) }
{
    files.iter().all(|file| is_source(path, file))
}

// Whether there are no more declarations than the limit.
fn has_few_decls(files: &[FileTree]) -> bool
    ensures { result ≡ form.has_few_decls (map source_of files.now) }
{
    let mut room = SIZE_LIMIT;
    for file in files {
        let count = file.decls.len();
        if count > room {
            return false;
        }
        room -= count;
    }
    true
}

/// Whether sources of this size together are those of a package of this path.
pub(crate) fn is_package(path: &[u8], size: usize, files: &[FileTree]) -> bool
    ensures { result ≡ form.is_package path.now size (map source_of files.now) }
{
    is_path(path) && size <= SIZE_LIMIT && has_few_decls(files) && are_sources(path, files)
}
