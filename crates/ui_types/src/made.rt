ghost use Rattle.std.specs.Prelude.{◌≡◌, ◌++◌, OnOk};
ghost use Rattle.std.specs.Option.{option_to_list};

use crate::extent::Extent;
use crate::id::TypeId;
use std::collections::HashMap;
use ui_base::NoMemory;

/// What a type has become: its extent, and its id where it is within the limits.
#[derive(Clone, Copy)]
pub struct Made {
    pub extent: Extent,
    pub id: Option<TypeId>,
}

/// What the parts of a type have become: the sum of their sizes, the depth of the deepest, and
/// their ids, all of them where they are within the limits together.
#[derive(Drop)]
pub struct MadeParts {
    pub extent: Extent,
    pub ids: Vec<TypeId>,
}

/// What each type done so far has become, so that each is done once.
pub type Memo = HashMap<TypeId, Made>;

/// Puts the id at the end, where there is one.
pub fn push_made(ids: &mut Vec<TypeId>, id: Option<TypeId>) -> Result<(), NoMemory>
    ensures { OnOk result (ids.new.items ≡ ids.old.items ++ option_to_list id) }
{
    if let Some(id) = id {
        ids.push(id)?;
    }
    Ok(())
}
