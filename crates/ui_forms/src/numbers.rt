// Texts and a number for each.
ghost use Rattle.std.specs.Prelude.{◌≡◌, [], IfOk, OnOk, not};
ghost use Rattle.std.specs.FinMap.{get, insert, empty};
ghost use Rattle.ui_forms.specs.Numbers.{has, numbers_of};

use std::alloc::Global;
use std::collections::BTreeMap;
use std::marker::Model;
use ui_base::NoMemory;

/// Texts, and a number for each of them.
#[derive(Debug, Drop)]
pub struct Numbers {
    pub(crate) map: BTreeMap<Vec<u8>, usize>,
    alloc: Global,
}

impl Model for Numbers {
    ghost use Rattle.std.specs.Prelude.{ℕ};
    ghost use Rattle.std.specs.Coded.{coded_ℕ, coded_list};
    ghost use Rattle.std.specs.FinMap.{code};
    ghost use Rattle.ui_forms.specs.Numbers.{Numbered};

    ghost Value = { Numbered };

    ghost coded = { code (coded_list coded_ℕ) coded_ℕ };

    ghost use Rattle.ui_forms.specs.Numbers.{numbers_of};

    ghost view = { λ n. numbers_of n.map.entries };
}

impl Numbers {
    /// No texts yet.
    pub fn new(alloc: Global) -> Numbers
        ensures { result ≡ empty }
    {
        Numbers {
            map: BTreeMap::new(alloc),
            alloc,
        }
    }

    /// Gives the text a number, in place of one that it has. Tells whether it had none.
    pub fn add(&mut self, text: &[u8], number: usize) -> Result<bool, NoMemory>
        ensures added { IfOk result (λ added. added ≡ not (has self.old text.now)) }
        ensures now { OnOk result (self.new ≡ insert self.old text.now number) }
    {
        let text = Vec::from_slice(self.alloc, text)?;
        Ok(add(&mut self.map, text, number)?)
    }

    /// The number of a text.
    pub fn number(&self, text: &[u8]) -> Option<usize>
        ensures { result ≡ get self.now text.now }
    {
        find(&self.map, text)
    }

    /// Whether the text is there.
    pub fn has(&self, text: &[u8]) -> bool
        ensures { result ≡ has self.now text.now }
    {
        self.number(text).is_some()
    }
}

// Gives a text a number. Tells whether it had none.
fn add(map: &mut BTreeMap<Vec<u8>, usize>, text: Vec<u8>, number: usize) -> Result<bool, NoMemory>
    ensures added { IfOk result (λ added. added
        ≡ not (has (numbers_of map.old.entries) text.items)) }
    ensures now { OnOk result (numbers_of map.new.entries
        ≡ insert (numbers_of map.old.entries) text.items number) }
{
    let old = map.insert(text, number)?;
    Ok(old.is_none())
}

// The number of a text.
fn find(map: &BTreeMap<Vec<u8>, usize>, text: &[u8]) -> Option<usize>
    ensures { result ≡ get (numbers_of map.now.entries) text.now }
{
    map.get(text).copied()
}
