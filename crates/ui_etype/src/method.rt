ghost use Rattle.std.specs.Prelude.{◌≡◌, ◌<◌, length, Option, OnOk, IfOk, IfSome};
ghost use Rattle.std.specs.Option.{option_copied};
ghost use Rattle.ui_strpos.specs.Reading.{Context, Gives};
ghost use Rattle.ui_strpos.specs.Format.{use_field};
ghost use Rattle.ui_etype.specs.Types as types;
ghost use Rattle.ui_etype.specs.Types.{next_method, after_sel};

use crate::sel::Sel;
use crate::uses::TypeUse;
use std::alloc::Global;
use std::cmp::Ordering;
use ui_base::is_exported;
use ui_frame::{NoMemory, Section};
use ui_strpos::{Cause, ElementFault, ElementIn, ElementOut, Fields, ListEntry, get_name};

/// A method of an interface.
#[derive(Clone, Copy, PartialEq, Eq, Hash, Drop)]
pub struct MethodEl {
    pub sel: Sel,
    pub sig: TypeUse,
}

// Whether a method's name may stand after another: exported ones stand first, ascending. The order
// of two that aren't exported rests on their packages, and isn't tested here.
fn may_follow(one: &[u8], other: &[u8]) -> bool
    ensures { result ≡ types.may_follow one.now other.now }
{
    if is_exported(one) {
        !is_exported(other) || one.cmp(other) == Ordering::Less
    } else {
        !is_exported(other)
    }
}

// Reads the name of a method.
fn get_next(input: &mut ElementIn<'_>, before: Option<&MethodEl>) -> Result<u32, ElementFault>
    requires { IfSome (option_copied before) (λ b. b.sel.name < length input.old.context.texts) }
    ensures read { Gives (λ k. k) result input.new
        ((use_field 0 (next_method (option_copied before.entry))).read input.old) }
    ensures context { input.new.context ≡ input.old.context }
    ensures known { IfOk result (λ k. k < length input.new.context.texts) }
{
    let offset = input.place();
    let name = get_name(input)?;
    if let Some(before) = before {
        if !may_follow(input.text(before.sel.name), input.text(name)) {
            return Err(ElementFault::Bad {
                offset,
                cause: Cause::WrongCount,
            });
        }
    }
    Ok(name)
}

// Reads the selector of a method.
fn get_sel(input: &mut ElementIn<'_>, before: Option<&MethodEl>) -> Result<Sel, ElementFault>
    requires { IfSome (option_copied before) (λ b. b.sel.name < length input.old.context.texts) }
    ensures read { Gives (λ k. k) result input.new
        ((after_sel (option_copied before.entry)).read input.old) }
    ensures context { input.new.context ≡ input.old.context }
    ensures known { IfOk result (λ s. s.name < length input.new.context.texts) }
{
    let name = get_next(input, before)?;
    if is_exported(input.text(name)) {
        return Ok(Sel { name, pkg: None });
    }
    let pkg = input.target(Section::Pkg)?;
    Ok(Sel {
        name,
        pkg: Some(pkg),
    })
}

impl ListEntry for MethodEl {
    ghost use Rattle.std.specs.Prelude.{◌<◌, length};
    ghost use Rattle.ui_etype.specs.Types.{method_el};
    ghost use Rattle.ui_etype.specs.TypeLaws.{method_el_lawful};

    ghost form = { method_el };

    ghost known = { λ c e. e.sel.name < length c.texts };

    #[tactic(auto, using(ui_strpos::specs::Writing::written_append))]
    fn put(&self, alloc: Global, out: &mut ElementOut) -> Result<(), NoMemory> {
        self.sel.put(alloc, out)?;
        self.sig.put(alloc, out)
    }

    fn get(
        alloc: Global,
        input: &mut ElementIn<'_>,
        before: Option<&MethodEl>,
    ) -> Result<MethodEl, ElementFault> {
        let sel = get_sel(input, before)?;
        let sig = TypeUse::get(alloc, input)?;
        Ok(MethodEl { sel, sig })
    }

    ghost lawful = { method_el_lawful };
}
