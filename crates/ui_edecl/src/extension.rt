ghost use Rattle.std.specs.Prelude.{◌≡◌, OnOk};
ghost use Rattle.ui_strpos.specs.Reading.{Gives};
ghost use Rattle.ui_edecl.specs.Extensions.{extension};

use std::alloc::Global;
use ui_base::Items;
use ui_frame::{NoMemory, Section};
use ui_strpos::{Element, ElementFault, ElementIn, ElementOut, Fields, get_times, put_times};

/// The Body of a function or method, where it is kept.
#[derive(Clone, Copy, PartialEq, Eq, Drop)]
pub struct KeptEl {
    pub body: Option<u32>,
}

impl Fields for KeptEl {
    ghost use Rattle.ui_edecl.specs.Extensions.{kept};
    ghost use Rattle.ui_edecl.specs.DeclLaws.{kept_lawful};

    ghost form = { kept };

    fn put(&self, alloc: Global, out: &mut ElementOut) -> Result<(), NoMemory> {
        match self.body {
            Some(body) => {
                out.truth(alloc, true)?;
                out.target(alloc, Section::Body, body)
            }
            None => out.truth(alloc, false),
        }
    }

    fn get(_alloc: Global, input: &mut ElementIn<'_>) -> Result<KeptEl, ElementFault> {
        if input.truth()? {
            let body = input.target(Section::Body)?;
            return Ok(KeptEl { body: Some(body) });
        }
        Ok(KeptEl { body: None })
    }

    ghost lawful = { kept_lawful };
}

/// Which bodies of a declaration are kept.
#[derive(PartialEq, Eq, Drop)]
pub enum ObjExtEl {
    Func(KeptEl),
    /// One per method, in the order of the Obj.
    Defined(Items<KeptEl>),
    /// What has no bodies.
    Other,
}

// Reads the fields of the kind that the shape says.
fn extension_of(alloc: Global, input: &mut ElementIn<'_>) -> Result<ObjExtEl, ElementFault>
    ensures { Gives (λ v. v) result input.new (extension.read input.old) }
{
    match input.shape().code {
        3 => Ok(ObjExtEl::Func(KeptEl::get(alloc, input)?)),
        2 => {
            let count = u64::from(input.shape().methods);
            Ok(ObjExtEl::Defined(Items::new(get_times(alloc, input, count)?)))
        }
        _ => Ok(ObjExtEl::Other),
    }
}

impl Element for ObjExtEl {
    ghost use Rattle.ui_edecl.specs.Extensions.{extension};
    ghost use Rattle.ui_edecl.specs.DeclLaws.{extension_lawful};

    ghost format = { extension };

    #[tactic(auto, using(ui_strpos::specs::Writing::written_append))]
    fn encode(&self, alloc: Global, out: &mut ElementOut) -> Result<(), NoMemory> {
        match self {
            ObjExtEl::Func(kept) => kept.put(alloc, out),
            ObjExtEl::Defined(kept) => put_times(alloc, out, kept.items()),
            ObjExtEl::Other => Ok(()),
        }
    }

    fn decode(alloc: Global, input: &mut ElementIn<'_>) -> Result<ObjExtEl, ElementFault> {
        let value = extension_of(alloc, input)?;
        input.finish()?;
        Ok(value)
    }

    ghost lawful = { extension_lawful };
}
