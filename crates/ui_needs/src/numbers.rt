// The nodes of declared names.
ghost use Rattle.std.specs.Prelude.{◌≡◌, ◌&&◌, not, ℕ, List, Some, OnOk, IfOk, bytes_eq, map};
ghost use Rattle.std.specs.Prelude.{if◌then◌else◌};
ghost use Rattle.std.specs.Map.{lookup};
ghost use Rattle.std.specs.Option.{option_copied};
ghost use Rattle.ui_collect.specs.Names.{is_blank, is_init};
ghost use Rattle.ui_collect.specs.Views.{item_view};
ghost use Rattle.ui_needs.specs.Links as links;
ghost use Rattle.ui_needs.specs.Views.{found_in};

use indexmap::IndexMap;
use std::alloc::Global;
use std::marker::Model;
use ui_base::{NoMemory, Text};
use ui_collect::Item;

/// The nodes of a declaration: what its name is declared as, and the underlying type of that.
#[derive(Clone, Copy, Drop)]
pub struct Nodes {
    pub meaning: usize,
    pub under: usize,
}

/// The nodes of the declaration of each name, found by its hash.
#[derive(Drop)]
pub struct Numbering {
    map: IndexMap<Text, Nodes>,
}

impl Model for Numbering {
    ghost use Rattle.std.specs.Prelude.{ℕ, List};
    ghost use Rattle.ui_needs.specs.declared.numbers.Nodes.{Nodes};

    ghost Value = { List (List ℕ × Nodes) };

    ghost view = { λ n. n.map.entries };
}

impl Numbering {
    /// No names.
    pub fn new(alloc: Global) -> Numbering
        ensures { found_in result ≡ links.no_numbers }
    {
        Numbering {
            map: IndexMap::new(alloc),
        }
    }

    /// The nodes of the declaration of the name.
    pub fn find(&self, name: &Text) -> Option<&Nodes>
        ensures { option_copied result ≡ found_in self.now name.now }
    {
        self.map.get(name)
    }

    // Gives the name these nodes.
    fn put(&mut self, name: Text, nodes: Nodes) -> Result<(), NoMemory>
        ensures { OnOk result ((n : List ℕ) → found_in self.new n ≡ (if bytes_eq n name then Some
            nodes else found_in self.old n)) }
    {
        self.map.insert(name, nodes)?;
        Ok(())
    }
}

// Whether a name can be referred to.
fn is_referred(name: &Text) -> bool
    ensures { result ≡ (not (is_blank name.now) && not (is_init name.now)) }
{
    name.bytes() != b"_".as_slice() && name.bytes() != b"init".as_slice()
}

// Gives the name of the k-th declaration its nodes.
#[tactic(auto, using(std::proofs::lemmas::Grind::common_steps, crate::proofs::LinkLemmas::numbering))]
fn add(alloc: Global, numbers: &mut Numbering, name: &Text, nodes: Nodes) -> Result<(), NoMemory>
    ensures { OnOk result ((k : ℕ) → nodes ≡ links.nodes_at k → found_in numbers.new ≡
        links.with_number (found_in numbers.old) k name.now) }
{
    if is_referred(name) {
        numbers.put(name.copy(alloc)?, nodes)?;
    }
    Ok(())
}

/// The nodes of the declarations of each name.
#[tactic(auto, using(std::proofs::lemmas::Grind::common_steps, crate::proofs::LinkLemmas::numbering))]
pub fn numbers_of(alloc: Global, items: &[Item<'_>]) -> Result<Numbering, NoMemory>
    ensures { IfOk result (λ n. found_in n ≡ links.numbers_of (map item_view items.now)) }
{
    let mut numbers = Numbering::new(alloc);
    for i in 0..items.len() {
        let nodes = Nodes {
            meaning: 2 * i,
            under: 2 * i + 1,
        };
        let name = items[i].name;
        add(alloc, &mut numbers, &name.text, nodes)?;
    }
    Ok(numbers)
}
