ghost use Rattle.std.specs.Prelude.{◌≡◌, Option, OnOk, IfOk, IfSome};
ghost use Rattle.std.specs.Option.{option_copied};
ghost use Rattle.ui_strpos.specs.Items.{written};
ghost use Rattle.ui_strpos.specs.Reading.{Context, Gives};
ghost use Rattle.ui_strpos.specs.Format.{Format, counted_by, times_by, Lawful};

use crate::fault::ElementFault;
use crate::input::ElementIn;
use crate::out::ElementOut;
use std::alloc::Global;
use ui_frame::NoMemory;

/// What stands as an entry of a list in which each entry is tested by the one before it, as where
/// the list has to ascend.
pub trait ListEntry: Sized + Drop {
    // The grammar after an entry, or after none.
    ghost form: { Option Self → Format Self };

    // What is known of an entry that was read.
    ghost known: { Context → Self → Type 0 };

    /// Writes the entry's fields.
    fn put(&self, alloc: Global, out: &mut ElementOut) -> Result<(), NoMemory>
        ensures { OnOk result ((before : Option Self)
            → out.new ≡ written out.old ((form before).items self.now)) };

    /// Reads the fields of an entry after the one before.
    fn get(
        alloc: Global,
        input: &mut ElementIn<'_>,
        before: Option<&Self>,
    ) -> Result<Self, ElementFault>
        requires { IfSome (option_copied before) (known input.old.context) }
        ensures read { Gives (λ v. v) result input.new
            ((form (option_copied before.entry)).read input.old) }
        ensures context { input.new.context ≡ input.old.context }
        ensures known { IfOk result (known input.new.context) };

    ghost lawful: { (before : Option Self) → Lawful (form before) };
}

/// Writes a count, and so many entries.
pub fn put_entries<T: ListEntry>(
    alloc: Global,
    out: &mut ElementOut,
    list: &[T],
) -> Result<(), NoMemory>
    ensures { OnOk result (out.new ≡ written out.old ((counted_by T.form).items list.now)) }
{
    out.uint(alloc, list.len() as u64)?;
    for entry in list {
        entry.put(alloc, out)?;
    }
    Ok(())
}

/// Reads a count, and so many entries, each after the one before.
pub fn get_entries<T: ListEntry>(
    alloc: Global,
    input: &mut ElementIn<'_>,
) -> Result<Vec<T>, ElementFault>
    ensures read { Gives (λ v. v.items) result input.new ((counted_by T.form).read input.old) }
    ensures context { input.new.context ≡ input.old.context }
{
    let count = input.uint()?;
    so_many(alloc, input, count)
}

fn so_many<T: ListEntry>(
    alloc: Global,
    input: &mut ElementIn<'_>,
    count: u64,
) -> Result<Vec<T>, ElementFault>
    ensures read { Gives (λ v. v.items) result input.new
        (times_by T.form Option.None count input.old) }
    ensures context { input.new.context ≡ input.old.context }
{
    let mut list = Vec::new(alloc);
    'entries: for _ in 0..count {
        let entry = T::get(alloc, input, list.last())?;
        list.push(entry)?;
    }
    Ok(list)
}
