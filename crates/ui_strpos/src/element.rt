ghost use Rattle.std.specs.Prelude.{◌≡◌, ◌≢◌, ◌++◌, List, [], ℕ, length, OnOk, IfOk, IfErr};
ghost use Rattle.ui_strpos.specs.declared.target.Target.{Target};
ghost use Rattle.ui_strpos.specs.Items.{Item, written, nothing, spelling};
ghost use Rattle.ui_strpos.specs.FirstUses.{first_uses, targets};
ghost use Rattle.ui_strpos.specs.OwnTable.{data_in};
ghost use Rattle.ui_strpos.specs.Faults.{StandsAtField, with_unused};
ghost use Rattle.ui_strpos.specs.Whole.{IsTable};
ghost use Rattle.ui_strpos.specs.Contexts.{context};
ghost use Rattle.ui_strpos.specs.Reading.{Context, Gives, Gives_value, fault};
ghost use Rattle.ui_strpos.specs.Format.{Format, InGrammar, whole_in, element_in, Lawful};

use crate::fault::{Cause, ElementFault};
use crate::input::ElementIn;
use crate::out::ElementOut;
use crate::shape::Shape;
use std::alloc::Global;
use ui_frame::{Frame, NoMemory};

/// What stands in a container as an element other than a String: a relocation table, and fields.
pub trait Element: Sized {
    // The grammar: the fields of each value, which values fit, and how they are read.
    ghost format: { Format Self };

    /// Writes the value's fields, and adds the targets that they use to the table.
    fn encode(&self, alloc: Global, out: &mut ElementOut) -> Result<(), NoMemory>
        requires { (c : Context) × InGrammar format c self.now }
        ensures { OnOk result (out.new ≡ written out.old (format.items self.now)) };

    /// Reads all fields and tests the end. The fault is the first that stands in the data; then an
    /// entry that isn't used, and last bytes that are left over.
    fn decode(alloc: Global, input: &mut ElementIn<'_>) -> Result<Self, ElementFault>
        ensures { Gives (λ v. v) result input.new (whole_in format input.old) };

    ghost lawful: { Lawful format };
}

/// The one spelling of an element.
pub fn write_element<E: Element>(alloc: Global, element: &E) -> Result<Vec<u8>, NoMemory>
    requires { (c : Context) × InGrammar E.format c element.now }
    ensures { IfOk result (λ v. v.items ≡ spelling (E.format.items element.now)) }
{
    let mut out = ElementOut::new(alloc);
    element.encode(alloc, &mut out)?;
    out.bytes(alloc)
}

/// The element that all of the bytes spell, over the numbers of elements and the Strings of a
/// container.
pub fn read_element<'a, E: Element + Drop>(
    alloc: Global,
    bytes: &'a [u8],
    own: u32,
    frame: &'a Frame<'a>,
    shape: &Shape,
) -> Result<E, ElementFault>
    // What is read is in the grammar, and the bytes are its spelling.
    ensures found { IfOk result (λ e. InGrammar E.format (context own shape.now frame.now) e
        × (bytes.now ≡ spelling (E.format.items e))) }

    // What is in the grammar is read from its spelling, unless memory runs out.
    ensures only { (e : E) → InGrammar E.format (context own shape.now frame.now) e
        → bytes.now ≡ spelling (E.format.items e) → Gives_value (λ e. e) result (Ok e) }

    // Which fault it is, and where: the first test that fails, from left to right.
    ensures exact { Gives_value (λ e. e) result
        (element_in E.format (context own shape.now frame.now) bytes.now) }

    // What stands before a fault is whole fields.
    ensures field { IfErr result (StandsAtField bytes.now) }

    // Bytes after a spelling are left over,
    ensures tail { (e : E) (more : List ℕ) → InGrammar E.format (context own shape.now frame.now) e
        → more ≢ [] → bytes.now ≡ spelling (E.format.items e) ++ more
        → Gives_value (λ e. e) result (Err (fault
        (length (spelling (E.format.items e))) Cause.Tail)) }

    // and entries after those that the fields use go before them.
    ensures unused { (e : E) (unused : List Target) (more : List ℕ)
        → InGrammar E.format (context own shape.now frame.now) e → unused ≢ []
        → IsTable (context own shape.now frame.now)
        ((written nothing (E.format.items e)).table ++ unused)
        → bytes.now ≡ with_unused unused (E.format.items e) ++ more
        → Gives_value (λ e. e) result (Err (fault 0 Cause.TableUse)) }
{
    read_all(alloc, bytes, own, frame, shape)
}

fn read_all<'a, E: Element + Drop>(
    alloc: Global,
    bytes: &'a [u8],
    own: u32,
    frame: &'a Frame<'a>,
    shape: &Shape,
) -> Result<E, ElementFault>
    ensures { Gives_value (λ e. e) result (element_in E.format
        (context own shape.now frame.now) bytes.now) }
{
    let mut input = ElementIn::new(alloc, bytes, own, frame, shape)?;
    E::decode(alloc, &mut input)
}

/// The table that is written with fields has the targets that they use, each once, in the order of
/// first use; and a use is the place of its target in the whole table.
pub fn own_table()
    ensures first_uses { (is : List Item) → (written nothing is).table ≡ first_uses (targets is) }
    ensures places { (is : List Item) → (written nothing is).bytes
        ≡ data_in (written nothing is).table is }
{}

/// No spelling of a value begins another, under one shape and over the same numbers of elements and
/// Strings.
pub fn one_form<E: Element>()
    ensures { (c : Context) (a b : E) (more : List ℕ) → InGrammar E.format c a
        → InGrammar E.format c b → spelling (E.format.items a) ++ more ≡ spelling (E.format.items b)
        → (a ≡ b) × (more ≡ []) }
{}
