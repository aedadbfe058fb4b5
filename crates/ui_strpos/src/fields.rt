ghost use Rattle.std.specs.Prelude.{◌≡◌, OnOk};
ghost use Rattle.std.specs.List.{flat_map};
ghost use Rattle.ui_strpos.specs.Items.{written};
ghost use Rattle.ui_strpos.specs.Reading.{Gives};
ghost use Rattle.ui_strpos.specs.Format.{Format, counted, times, Lawful};

use crate::fault::ElementFault;
use crate::input::ElementIn;
use crate::out::ElementOut;
use std::alloc::Global;
use ui_frame::NoMemory;

/// What stands as some fields of an element.
pub trait Fields: Sized + Drop {
    ghost form: { Format Self };

    /// Writes the value's fields.
    fn put(&self, alloc: Global, out: &mut ElementOut) -> Result<(), NoMemory>
        ensures { OnOk result (out.new ≡ written out.old (form.items self.now)) };

    /// Reads the fields of a value.
    fn get(alloc: Global, input: &mut ElementIn<'_>) -> Result<Self, ElementFault>
        ensures read { Gives (λ v. v) result input.new (form.read input.old) }
        ensures context { input.new.context ≡ input.old.context };

    ghost lawful: { Lawful form };
}

/// Writes values one after another.
pub fn put_times<T: Fields>(alloc: Global, out: &mut ElementOut, list: &[T]) -> Result<(), NoMemory>
    ensures { OnOk result (out.new ≡ written out.old (flat_map T.form.items list.now)) }
{
    for item in list {
        item.put(alloc, out)?;
    }
    Ok(())
}

/// Reads so many values.
pub fn get_times<T: Fields>(
    alloc: Global,
    input: &mut ElementIn<'_>,
    count: u64,
) -> Result<Vec<T>, ElementFault>
    ensures read { Gives (λ v. v.items) result input.new (times T.form count input.old) }
    ensures context { input.new.context ≡ input.old.context }
{
    let mut list = Vec::new(alloc);
    'items: for _ in 0..count {
        let item = T::get(alloc, input)?;
        list.push(item)?;
    }
    Ok(list)
}

/// Writes a count, and so many values.
pub fn put_list<T: Fields>(alloc: Global, out: &mut ElementOut, list: &[T]) -> Result<(), NoMemory>
    ensures { OnOk result (out.new ≡ written out.old ((counted T.form).items list.now)) }
{
    out.uint(alloc, list.len() as u64)?;
    put_times(alloc, out, list)
}

/// Reads a count, and so many values.
pub fn get_list<T: Fields>(alloc: Global, input: &mut ElementIn<'_>) -> Result<Vec<T>, ElementFault>
    ensures read { Gives (λ v. v.items) result input.new ((counted T.form).read input.old) }
    ensures context { input.new.context ≡ input.old.context }
{
    let count = input.uint()?;
    get_times(alloc, input, count)
}
