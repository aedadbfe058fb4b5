// Packages by numbers.
ghost use Rattle.std.specs.Prelude.{◌≡◌, ◌<◌, ℕ, map, length, nat_eq, true, IfOk, bytes_eq};
ghost use Rattle.std.specs.Prelude.{string_bytes};
ghost use Rattle.std.specs.FinMap.{keys};
ghost use Rattle.ui_order.specs.Steps.{has};
ghost use Rattle.ui_order.specs.Found.{Text, IsClosed};
ghost use Rattle.ui_order.specs.Tables.{graph_of};
ghost use Rattle.ui_order.specs.Numbered.{path_at, AreLinksOf, names};

use indexmap::IndexSet;
use std::alloc::Global;
use std::collections::BTreeMap;
use ui_base::NoMemory;

/// The paths that were read, ascending: the number of a path is its place.
pub(crate) fn numbered(
    alloc: Global,
    read: &BTreeMap<String, Vec<String>>,
) -> Result<IndexSet<String>, NoMemory>
    ensures { IfOk result (λ paths. map string_bytes paths.keys
        ≡ keys (graph_of read.now.entries)) }
{
    let mut paths = IndexSet::new(alloc);
    for path in read.keys() {
        paths.insert(path.clone()?)?;
    }
    Ok(paths)
}

// The numbers of these paths.
fn numbers_of(
    alloc: Global,
    paths: &IndexSet<String>,
    imports: &[String],
) -> Result<Vec<usize>, NoMemory>
    requires { (q : Text) → has bytes_eq (map string_bytes imports.now) q ≡ true
        → has bytes_eq (names paths.now) q ≡ true }
    ensures paths { IfOk result (λ v. map (path_at (names paths.now)) v.items
        ≡ map string_bytes imports.now) }
    ensures small { IfOk result (λ v. (j : ℕ) → has nat_eq v.items j ≡ true
        → j < length (names paths.now)) }
{
    let mut numbers = Vec::new(alloc);
    for import in imports {
        match paths.get_full(import.as_str()) {
            Some((i, _)) => numbers.push(i)?,
            None => unreachable!(),
        }
    }
    Ok(numbers)
}

/// For each path the numbers of its imports.
pub(crate) fn links_of(
    alloc: Global,
    paths: &IndexSet<String>,
    read: &BTreeMap<String, Vec<String>>,
) -> Result<Vec<Vec<usize>>, NoMemory>
    requires closed { IsClosed (graph_of read.now.entries) }
    requires paths { names paths.now ≡ keys (graph_of read.now.entries) }
    ensures { IfOk result (λ links. AreLinksOf (graph_of read.now.entries) (names paths.now)
        (names paths.now) links.items) }
{
    let mut links = Vec::new(alloc);
    for (_path, imports) in read.iter() {
        links.push(numbers_of(alloc, paths, imports.as_slice())?)?;
    }
    Ok(links)
}
