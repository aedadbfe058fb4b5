ghost use Rattle.std.specs.Prelude.{◌≡◌, List, [], ◌∷◌, ◌<◌, ◌↔◌, IfOk, OnOk, IsTrue, Some, None};
ghost use Rattle.std.specs.Prelude.{option_map, map, string_bytes};
ghost use Rattle.std.specs.FinMap.{get, insert};
ghost use Rattle.ui_order.specs.Found.{Text, begun, least_unread, found_count, with_imports};
ghost use Rattle.ui_order.specs.Found.{with_unread, IsClosed};
ghost use Rattle.ui_order.specs.Tables.{texts, paths_of, graph_of};
ghost use Rattle.ui_order.specs.Order.{arranged};
ghost use Rattle.ui_order.specs.Shown.{shown};

use crate::order::{Order, arrange};
use std::alloc::Global;
use std::collections::{BTreeMap, BTreeSet};
use std::marker::Model;
use ui_base::NoMemory;

/// How many paths a build may find.
pub const PACKAGE_LIMIT: usize = 1024;

/// The paths that are found from a root along imports. Contracts see those not read yet, and those
/// read with their imports, both ascending by bytes.
#[derive(Drop)]
pub struct Discovery {
    unread: BTreeSet<String>,
    read: BTreeMap<String, Vec<String>>,
}

impl Model for Discovery {
    ghost use Rattle.ui_order.specs.Found.{Found, found_code};
    ghost use Rattle.ui_order.specs.Tables.{paths_of, graph_of};

    ghost Value = { Found };

    ghost coded = { found_code };

    ghost view = { λ d. record {
      unread = paths_of d.unread.keys;
      read = graph_of d.read.entries;
    } };
}

impl Discovery {
    /// The root is found and nothing is read.
    pub fn new(alloc: Global, root: &str) -> Result<Discovery, NoMemory>
        ensures { IfOk result (λ found. found ≡ begun root.now) }
    {
        let mut unread = BTreeSet::new(alloc);
        unread.insert(String::from_str(alloc, root)?)?;
        Ok(Discovery {
            unread,
            read: BTreeMap::new(alloc),
        })
    }

    /// The least found path that isn't read yet.
    pub fn next(&self) -> Option<&str>
        ensures { option_map (λ path. path.now) result ≡ least_unread self.now }
    {
        match self.unread.iter().next() {
            Some(path) => Some(path.as_str()),
            None => None,
        }
    }

    /// The path was read and has these imports, which are found now. Without memory some of them
    /// may be found and the path may be neither read nor unread: such a discovery is of no more
    /// use.
    pub fn add(&mut self, alloc: Global, path: String, imports: Vec<String>) -> Result<(), NoMemory>
        ensures { OnOk result (self.new ≡ with_imports self.old (string_bytes path)
            (texts imports)) }
    {
        self.unread.remove(path.as_str());
        find_imports(
            &mut self.unread,
            &self.read,
            path.as_str(),
            imports.as_slice(),
        )?;
        self.read.insert(path, imports)?;
        Ok(())
    }

    /// How many paths are found.
    pub fn count(&self) -> usize
        ensures { result ≡ found_count self.now }
    {
        self.unread.len() + self.read.len()
    }

    /// Whether more paths are found than a build may have.
    pub fn is_too_large(&self) -> bool
        ensures { IsTrue result ↔ (PACKAGE_LIMIT < found_count self.now) }
    {
        self.count() > PACKAGE_LIMIT
    }

    /// The direct imports of a path that was read.
    pub fn imports(&self, path: &str) -> Option<&[String]>
        ensures { option_map (λ imports. map string_bytes imports.now) result
            ≡ get self.now.read path.now }
    {
        match self.read.get(path) {
            Some(imports) => Some(imports.as_slice()),
            None => None,
        }
    }

    /// The least path on a cycle of imports, or else the build order: repeatedly the least path
    /// whose imports are all taken. Each import has to be a path that was read.
    pub fn order(&self, alloc: Global) -> Result<Order, NoMemory>
        requires { IsClosed self.now.read }
        ensures { IfOk result (λ order. shown order ≡ arranged self.now.read) }
    {
        arrange(alloc, &self.read)
    }
}

// An import that is neither read nor the path itself is unread now.
fn find_import(
    unread: &mut BTreeSet<String>,
    read: &BTreeMap<String, Vec<String>>,
    path: &str,
    import: &String,
) -> Result<(), NoMemory>
    ensures { (own : List Text) → OnOk result (paths_of unread.new.keys
        ≡ with_unread (insert (graph_of read.now.entries) path.now own) (paths_of unread.old.keys)
        (string_bytes import.now ∷ [])) }
{
    if import.as_str() == path || read.contains_key(import.as_str()) {
        return Ok(());
    }
    unread.insert(import.clone()?)?;
    Ok(())
}

// The same of each import.
fn find_imports(
    unread: &mut BTreeSet<String>,
    read: &BTreeMap<String, Vec<String>>,
    path: &str,
    imports: &[String],
) -> Result<(), NoMemory>
    ensures { (own : List Text) → OnOk result (paths_of unread.new.keys
        ≡ with_unread (insert (graph_of read.now.entries) path.now own) (paths_of unread.old.keys)
        (map string_bytes imports.now)) }
{
    for import in imports {
        find_import(unread, read, path, import)?;
    }
    Ok(())
}
