ghost use Rattle.std.specs.Prelude.{◌≡◌, ◌<◌, length, Option, OnOk, IfOk, IfSome};
ghost use Rattle.std.specs.Option.{option_copied};
ghost use Rattle.ui_strpos.specs.Reading.{Context, Gives, text_of};
ghost use Rattle.ui_strpos.specs.Elements as texts;
ghost use Rattle.ui_strpos.specs.Format.{use_field};
ghost use Rattle.ui_eobj.specs.Roots as roots;
ghost use Rattle.ui_eobj.specs.Roots.{next_path};

use std::alloc::Global;
use std::cmp::Ordering;
use ui_base::{Items, is_path};
use ui_frame::{NoMemory, Section};
use ui_strpos::{
    Cause, Element, ElementFault, ElementIn, ElementOut, Fields, ListEntry, get_entries, get_list,
    put_entries, put_list,
};

/// The use of an object without type arguments.
#[derive(Clone, Copy, Debug, PartialEq, Eq, Drop)]
pub struct ObjectUse {
    /// Its Obj.
    pub object: u32,
}

impl Fields for ObjectUse {
    ghost use Rattle.ui_eobj.specs.Roots.{object_use};
    ghost use Rattle.ui_eobj.specs.ObjectLaws.{object_use_lawful};

    ghost form = { object_use };

    fn put(&self, alloc: Global, out: &mut ElementOut) -> Result<(), NoMemory> {
        out.truth(alloc, false)?;
        out.target(alloc, Section::Obj, self.object)?;
        out.uint(alloc, 0)
    }

    fn get(_alloc: Global, input: &mut ElementIn<'_>) -> Result<ObjectUse, ElementFault> {
        let offset = input.place();
        if input.truth()? {
            return Err(ElementFault::Bad {
                offset,
                cause: Cause::BadCode,
            });
        }
        let object = input.target(Section::Obj)?;
        let offset = input.place();
        if input.uint()? != 0 {
            return Err(ElementFault::Bad {
                offset,
                cause: Cause::BadCode,
            });
        }
        Ok(ObjectUse { object })
    }

    ghost lawful = { object_use_lawful };
}

/// The public root: a file's package, and its objects, which ascend by name.
#[derive(Debug, PartialEq, Eq, Drop)]
pub struct PublicRootEl {
    /// The Pkg of the package.
    pub pkg: u32,
    pub objects: Items<ObjectUse>,
}

impl Element for PublicRootEl {
    ghost use Rattle.ui_eobj.specs.Roots.{public_root};
    ghost use Rattle.ui_eobj.specs.ObjectLaws.{public_root_lawful};

    ghost format = { public_root };

    fn encode(&self, alloc: Global, out: &mut ElementOut) -> Result<(), NoMemory> {
        out.target(alloc, Section::Pkg, self.pkg)?;
        out.truth(alloc, false)?;
        put_list(alloc, out, self.objects.items())
    }

    fn decode(alloc: Global, input: &mut ElementIn<'_>) -> Result<PublicRootEl, ElementFault> {
        let pkg = input.target(Section::Pkg)?;
        let offset = input.place();
        if input.truth()? {
            return Err(ElementFault::Bad {
                offset,
                cause: Cause::BadCode,
            });
        }
        let objects = Items::new(get_list(alloc, input)?);
        input.finish()?;
        Ok(PublicRootEl { pkg, objects })
    }

    ghost lawful = { public_root_lawful };
}

/// A package below: the Strings of its path and of its linked file's fingerprint, and whether it is
/// a direct import.
#[derive(Clone, Copy, Debug, PartialEq, Eq, Drop)]
pub struct BelowEl {
    pub path: u32,
    pub print: u32,
    pub direct: bool,
}

// Whether one text comes before another.
fn is_before(one: &[u8], other: &[u8]) -> bool
    ensures { result ≡ roots.is_before one.now other.now }
{
    one.cmp(other) == Ordering::Less
}

// Reads the path of an entry.
fn get_path(input: &mut ElementIn<'_>, before: Option<&BelowEl>) -> Result<u32, ElementFault>
    requires { IfSome (option_copied before) (λ b. b.path < length input.old.context.texts) }
    ensures read { Gives (λ k. k) result input.new
        ((use_field 0 (next_path (option_copied before.entry))).read input.old) }
    ensures context { input.new.context ≡ input.old.context }
    ensures known { IfOk result (λ k. k < length input.new.context.texts) }
{
    let offset = input.place();
    let path = input.target(Section::Str)?;
    if !is_path(input.text(path)) {
        return Err(ElementFault::Bad {
            offset,
            cause: Cause::BadText,
        });
    }
    if let Some(before) = before {
        if !is_before(input.text(before.path), input.text(path)) {
            return Err(ElementFault::Bad {
                offset,
                cause: Cause::WrongCount,
            });
        }
    }
    Ok(path)
}

// Reads the fingerprint of an entry.
fn get_print(input: &mut ElementIn<'_>) -> Result<u32, ElementFault>
    ensures read { Gives (λ k. k) result input.new
        ((use_field 0 (texts.text_passes roots.is_print)).read input.old) }
    ensures context { input.new.context ≡ input.old.context }
{
    let offset = input.place();
    let print = input.target(Section::Str)?;
    if input.text(print).len() != 8 {
        return Err(ElementFault::Bad {
            offset,
            cause: Cause::BadText,
        });
    }
    Ok(print)
}

impl ListEntry for BelowEl {
    ghost use Rattle.std.specs.Prelude.{◌<◌, length};
    ghost use Rattle.ui_eobj.specs.Roots.{below_entry};
    ghost use Rattle.ui_eobj.specs.ObjectLaws.{below_entry_lawful};

    ghost form = { below_entry };

    ghost known = { λ c e. e.path < length c.texts };

    fn put(&self, alloc: Global, out: &mut ElementOut) -> Result<(), NoMemory> {
        out.target(alloc, Section::Str, self.path)?;
        out.target(alloc, Section::Str, self.print)?;
        out.truth(alloc, self.direct)
    }

    fn get(
        _alloc: Global,
        input: &mut ElementIn<'_>,
        before: Option<&BelowEl>,
    ) -> Result<BelowEl, ElementFault> {
        let path = get_path(input, before)?;
        let print = get_print(input)?;
        let direct = input.truth()?;
        Ok(BelowEl {
            path,
            print,
            direct,
        })
    }

    ghost lawful = { below_entry_lawful };
}

/// The private root: the packages below, ascending by path.
#[derive(Debug, PartialEq, Eq, Drop)]
pub struct PrivateRootEl {
    pub below: Items<BelowEl>,
}

impl Element for PrivateRootEl {
    ghost use Rattle.ui_eobj.specs.Roots.{private_root};
    ghost use Rattle.ui_eobj.specs.ObjectLaws.{private_root_lawful};

    ghost format = { private_root };

    fn encode(&self, alloc: Global, out: &mut ElementOut) -> Result<(), NoMemory> {
        put_entries(alloc, out, self.below.items())
    }

    fn decode(alloc: Global, input: &mut ElementIn<'_>) -> Result<PrivateRootEl, ElementFault> {
        let below = Items::new(get_entries(alloc, input)?);
        input.finish()?;
        Ok(PrivateRootEl { below })
    }

    ghost lawful = { private_root_lawful };
}
