// A package of constants.
ghost use Rattle.std.specs.Prelude.{◌≡◌, [], IfOk, OnOk, not, is_some, option_map};
ghost use Rattle.std.specs.FinMap.{get, insert};
ghost use Rattle.ui_exports.specs.Constants.{declaration, declarations_of};
ghost use Rattle.ui_exports.specs.Adding.{with_decls};

use std::alloc::Global;
use std::collections::BTreeMap;
use std::marker::Model;
use ui_base::{NoMemory, Pos, Text};

/// An untyped whole constant: the place of its name, and its value, which is below 2^127 in each
/// package that is accepted.
#[derive(Debug, Drop)]
pub struct Constant {
    pub pos: Pos,
    pub value: u128,
}

/// What a package of constants exports: its path, its name, and its constants by their names.
#[derive(Debug, Drop)]
pub struct Package {
    pub(crate) path: Text,
    pub(crate) name: Text,
    pub(crate) constants: BTreeMap<Vec<u8>, Constant>,
}

impl Model for Package {
    ghost use Rattle.ui_exports.specs.Export.{Export, export_code};

    ghost Value = { Export };

    ghost coded = { export_code };

    ghost use Rattle.ui_exports.specs.Constants.{declarations_of};

    ghost view = { λ p. record {
      path = p.path;
      name = p.name;
      decls = declarations_of p.constants.entries;
    } };
}

impl Package {
    /// A package that declares nothing yet.
    pub fn new(alloc: Global, path: &[u8], name: &[u8]) -> Result<Package, NoMemory>
        ensures { IfOk result (λ p. p ≡ record {
          path = path.now;
          name = name.now;
          decls = declarations_of [];
        }) }
    {
        Ok(Package {
            path: Text::from_slice(alloc, path)?,
            name: Text::from_slice(alloc, name)?,
            constants: BTreeMap::new(alloc),
        })
    }

    /// Declares a constant, in place of one of the same name. Tells whether there was none. After
    /// want of memory the package is as it was.
    pub fn declare(&mut self, name: Vec<u8>, constant: Constant) -> Result<bool, NoMemory>
        ensures added { IfOk result (λ added. added
            ≡ not (is_some (get self.old.decls name.items))) }
        ensures now { OnOk result (self.new ≡ with_decls self.old
            (insert self.old.decls name.items (declaration constant))) }
    {
        Ok(add(&mut self.constants, name, constant)?)
    }

    /// The path of the package.
    pub fn path(&self) -> &[u8]
        ensures { result.now ≡ self.now.path }
    {
        self.path.bytes()
    }

    /// The name of the package.
    pub fn name(&self) -> &[u8]
        ensures { result.now ≡ self.now.name }
    {
        self.name.bytes()
    }

    /// The constants by their names.
    pub fn constants(&self) -> &BTreeMap<Vec<u8>, Constant>
        ensures { declarations_of result.now.entries ≡ self.now.decls }
    {
        &self.constants
    }

    /// The value of a constant, or nothing where the package has none of this name. Takes the time
    /// of a search in an ordered map, and no memory.
    pub fn value(&self, name: &[u8]) -> Option<u128>
        ensures { result ≡ option_map (λ d. d.value) (get self.now.decls name.now) }
    {
        match find(&self.constants, name) {
            Some(constant) => Some(constant.value),
            None => None,
        }
    }
}

// Adds a constant, in place of one of the same name. Tells whether there was none.
fn add(
    constants: &mut BTreeMap<Vec<u8>, Constant>,
    name: Vec<u8>,
    constant: Constant,
) -> Result<bool, NoMemory>
    ensures added { IfOk result (λ added. added
        ≡ not (is_some (get (declarations_of constants.old.entries) name.items))) }
    ensures now { OnOk result (declarations_of constants.new.entries
        ≡ insert (declarations_of constants.old.entries) name.items (declaration constant)) }
{
    let old = constants.insert(name, constant)?;
    Ok(old.is_none())
}

// A constant by its name.
fn find<'a>(constants: &'a BTreeMap<Vec<u8>, Constant>, name: &[u8]) -> Option<&'a Constant>
    ensures { option_map (λ c. declaration c.now) result
        ≡ get (declarations_of constants.now.entries) name.now }
{
    constants.get(name)
}
