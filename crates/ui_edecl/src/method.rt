ghost use Rattle.std.specs.Prelude.{◌≡◌, ◌<◌, length, Option, OnOk, IfOk, IfSome};
ghost use Rattle.std.specs.Option.{option_copied};
ghost use Rattle.ui_strpos.specs.Reading.{Context, Gives};
ghost use Rattle.ui_strpos.specs.Format.{use_field};
ghost use Rattle.ui_etype.specs.Types.{sel_by};
ghost use Rattle.ui_edecl.specs.Objects as objects;
ghost use Rattle.ui_edecl.specs.Objects.{next_method};

use std::alloc::Global;
use std::cmp::Ordering;
use ui_base::is_exported;
use ui_eobj::PosEl;
use ui_etype::{Sel, TypeUse, get_outer};
use ui_frame::{NoMemory, Section};
use ui_strpos::{Cause, ElementFault, ElementIn, ElementOut, Fields, ListEntry, get_name};

/// A method of a defined type.
#[derive(Clone, Copy, PartialEq, Eq, Drop)]
pub struct DeclaredMethodEl {
    pub sel: Sel,
    pub pos: PosEl,
    /// Whether its receiver is a pointer.
    pub pointer: bool,
    pub sig: TypeUse,
}

// Whether a method's name may stand after another: they ascend. The order of two of one name that
// isn't exported rests on their packages, and isn't tested here.
fn may_follow(one: &[u8], other: &[u8]) -> bool
    ensures { result ≡ objects.may_follow one.now other.now }
{
    one.cmp(other) == Ordering::Less || (one == other && !is_exported(one))
}

// Reads the name of a method.
fn get_next(
    input: &mut ElementIn<'_>,
    before: Option<&DeclaredMethodEl>,
) -> Result<u32, ElementFault>
    requires { IfSome (option_copied before) (λ b. b.sel.name < length input.old.context.texts) }
    ensures read { Gives (λ k. k) result input.new
        ((use_field 0 (next_method (option_copied before.entry))).read input.old) }
    ensures context { input.new.context ≡ input.old.context }
    ensures known { IfOk result (λ k. k < length input.new.context.texts) }
{
    let offset = input.place();
    let name = get_name(input)?;
    if let Some(before) = before {
        if !may_follow(input.text(before.sel.name), input.text(name)) {
            return Err(ElementFault::Bad {
                offset,
                cause: Cause::WrongCount,
            });
        }
    }
    Ok(name)
}

// Reads the selector of a method.
fn get_sel(
    input: &mut ElementIn<'_>,
    before: Option<&DeclaredMethodEl>,
) -> Result<Sel, ElementFault>
    requires { IfSome (option_copied before) (λ b. b.sel.name < length input.old.context.texts) }
    ensures read { Gives (λ k. k) result input.new
        ((sel_by (use_field 0 (next_method (option_copied before.entry)))).read input.old) }
    ensures context { input.new.context ≡ input.old.context }
    ensures known { IfOk result (λ s. s.name < length input.new.context.texts) }
{
    let name = get_next(input, before)?;
    if is_exported(input.text(name)) {
        return Ok(Sel { name, pkg: None });
    }
    let pkg = input.target(Section::Pkg)?;
    Ok(Sel {
        name,
        pkg: Some(pkg),
    })
}

impl ListEntry for DeclaredMethodEl {
    ghost use Rattle.std.specs.Prelude.{◌<◌, length};
    ghost use Rattle.ui_edecl.specs.Objects.{method_el};
    ghost use Rattle.ui_edecl.specs.DeclLaws.{method_el_lawful};

    ghost form = { method_el };

    ghost known = { λ c e. e.sel.name < length c.texts };

    #[tactic(auto, using(ui_strpos::specs::Writing::written_append))]
    fn put(&self, alloc: Global, out: &mut ElementOut) -> Result<(), NoMemory> {
        self.sel.put(alloc, out)?;
        self.pos.put(alloc, out)?;
        out.truth(alloc, self.pointer)?;
        self.sig.put(alloc, out)
    }

    fn get(
        alloc: Global,
        input: &mut ElementIn<'_>,
        before: Option<&DeclaredMethodEl>,
    ) -> Result<DeclaredMethodEl, ElementFault> {
        let sel = get_sel(input, before)?;
        let pos = PosEl::get(alloc, input)?;
        let pointer = input.truth()?;
        let sig = get_outer(input)?;
        Ok(DeclaredMethodEl {
            sel,
            pos,
            pointer,
            sig,
        })
    }

    ghost lawful = { method_el_lawful };
}
