ghost use Rattle.std.specs.Prelude.{◌≡◌, OnOk};
ghost use Rattle.ui_strpos.specs.Reading.{Gives};
ghost use Rattle.ui_strpos.specs.Format.{uint_field};
ghost use Rattle.ui_eobj.specs.Values.{clear_flag};
ghost use Rattle.ui_etype.specs.Types.{type_el, is_basic, basic_kind, array_len, some_terms, basic};
ghost use Rattle.ui_etype.specs.Types.{named, array, map_type, signature, interface, union_type};

use crate::field::FieldEl;
use crate::method::MethodEl;
use crate::term::TermEl;
use crate::uses::TypeUse;
use std::alloc::Global;
use ui_base::Items;
use ui_frame::{NoMemory, Section};
use ui_strpos::{
    Cause, Element, ElementFault, ElementIn, ElementOut, Fields, get_entries, get_list, get_times,
    put_entries, put_list,
};

/// A type. Go specification, "Types".
#[derive(PartialEq, Eq, Hash, Drop)]
pub enum TypeEl {
    /// By the code of its kind.
    Basic(u64),
    /// A declared type by its Obj, with its type arguments.
    Named {
        object: u32,
        args: Items<TypeUse>,
    },
    Pointer(TypeUse),
    Slice(TypeUse),
    Array {
        len: u64,
        elem: TypeUse,
    },
    Map {
        key: TypeUse,
        elem: TypeUse,
    },
    Signature {
        params: Items<TypeUse>,
        results: Items<TypeUse>,
    },
    Struct(Items<FieldEl>),
    Interface {
        methods: Items<MethodEl>,
        comparable: bool,
        unions: Items<TypeUse>,
    },
    Union(Items<TermEl>),
    TypeParam(u64),
}

fn bad(offset: usize, cause: Cause) -> ElementFault
    ensures { result ≡ ElementFault.Bad offset cause }
{
    ElementFault::Bad { offset, cause }
}

fn has_kind(kind: u64) -> bool
    ensures { result ≡ is_basic kind }
{
    (1 <= kind && kind <= 11) || matches!(kind, 17 | 19 | 20 | 21 | 24 | 25)
}

fn basic_of(input: &mut ElementIn<'_>) -> Result<TypeEl, ElementFault>
    ensures { Gives (λ v. v) result input.new (basic.read input.old) }
{
    let offset = input.place();
    let kind = input.uint()?;
    if !has_kind(kind) {
        return Err(bad(offset, Cause::BadCode));
    }
    Ok(TypeEl::Basic(kind))
}

fn named_of(alloc: Global, input: &mut ElementIn<'_>) -> Result<TypeEl, ElementFault>
    ensures { Gives (λ v. v) result input.new (named.read input.old) }
{
    let offset = input.place();
    if input.truth()? {
        return Err(bad(offset, Cause::BadCode));
    }
    let object = input.target(Section::Obj)?;
    let args = Items::new(get_list(alloc, input)?);
    Ok(TypeEl::Named { object, args })
}

fn array_of(alloc: Global, input: &mut ElementIn<'_>) -> Result<TypeEl, ElementFault>
    ensures { Gives (λ v. v) result input.new (array.read input.old) }
{
    let offset = input.place();
    let len = input.uint()?;
    if len >= 0x8000_0000_0000_0000 {
        return Err(bad(offset, Cause::WrongCount));
    }
    let elem = TypeUse::get(alloc, input)?;
    Ok(TypeEl::Array { len, elem })
}

fn map_of(alloc: Global, input: &mut ElementIn<'_>) -> Result<TypeEl, ElementFault>
    ensures { Gives (λ v. v) result input.new (map_type.read input.old) }
{
    let key = TypeUse::get(alloc, input)?;
    let elem = TypeUse::get(alloc, input)?;
    Ok(TypeEl::Map { key, elem })
}

fn signature_of(alloc: Global, input: &mut ElementIn<'_>) -> Result<TypeEl, ElementFault>
    ensures { Gives (λ v. v) result input.new (signature.read input.old) }
{
    let params = Items::new(get_list(alloc, input)?);
    let results = Items::new(get_list(alloc, input)?);
    Ok(TypeEl::Signature { params, results })
}

fn interface_of(alloc: Global, input: &mut ElementIn<'_>) -> Result<TypeEl, ElementFault>
    ensures { Gives (λ v. v) result input.new (interface.read input.old) }
{
    let methods = Items::new(get_entries(alloc, input)?);
    let comparable = input.truth()?;
    let unions = Items::new(get_list(alloc, input)?);
    Ok(TypeEl::Interface {
        methods,
        comparable,
        unions,
    })
}

fn union_of(alloc: Global, input: &mut ElementIn<'_>) -> Result<TypeEl, ElementFault>
    ensures { Gives (λ v. v) result input.new (union_type.read input.old) }
{
    let offset = input.place();
    let count = input.uint()?;
    if count == 0 {
        return Err(bad(offset, Cause::BadCode));
    }
    let terms = Items::new(get_times(alloc, input, count)?);
    Ok(TypeEl::Union(terms))
}

// Reads a code, and the fields of its case.
fn type_of(alloc: Global, input: &mut ElementIn<'_>) -> Result<TypeEl, ElementFault>
    ensures { Gives (λ v. v) result input.new (type_el.read input.old) }
{
    let offset = input.place();
    match input.uint()? {
        0 => basic_of(input),
        1 => named_of(alloc, input),
        2 => Ok(TypeEl::Pointer(TypeUse::get(alloc, input)?)),
        3 => Ok(TypeEl::Slice(TypeUse::get(alloc, input)?)),
        4 => array_of(alloc, input),
        6 => map_of(alloc, input),
        7 => signature_of(alloc, input),
        8 => Ok(TypeEl::Struct(Items::new(get_list(alloc, input)?))),
        9 => interface_of(alloc, input),
        10 => union_of(alloc, input),
        11 => Ok(TypeEl::TypeParam(input.uint()?)),
        _ => Err(bad(offset, Cause::BadCode)),
    }
}

impl Element for TypeEl {
    ghost use Rattle.ui_etype.specs.TypeLaws.{type_el_lawful};

    ghost format = { type_el };

    #[tactic(auto, using(ui_strpos::specs::Writing::written_append))]
    fn encode(&self, alloc: Global, out: &mut ElementOut) -> Result<(), NoMemory> {
        match self {
            TypeEl::Basic(kind) => {
                out.uint(alloc, 0)?;
                out.uint(alloc, *kind)
            }
            TypeEl::Named { object, args } => {
                out.uint(alloc, 1)?;
                out.truth(alloc, false)?;
                out.target(alloc, Section::Obj, *object)?;
                put_list(alloc, out, args.items())
            }
            TypeEl::Pointer(base) => {
                out.uint(alloc, 2)?;
                base.put(alloc, out)
            }
            TypeEl::Slice(elem) => {
                out.uint(alloc, 3)?;
                elem.put(alloc, out)
            }
            TypeEl::Array { len, elem } => {
                out.uint(alloc, 4)?;
                out.uint(alloc, *len)?;
                elem.put(alloc, out)
            }
            TypeEl::Map { key, elem } => {
                out.uint(alloc, 6)?;
                key.put(alloc, out)?;
                elem.put(alloc, out)
            }
            TypeEl::Signature { params, results } => {
                out.uint(alloc, 7)?;
                put_list(alloc, out, params.items())?;
                put_list(alloc, out, results.items())
            }
            TypeEl::Struct(fields) => {
                out.uint(alloc, 8)?;
                put_list(alloc, out, fields.items())
            }
            TypeEl::Interface {
                methods,
                comparable,
                unions,
            } => {
                out.uint(alloc, 9)?;
                put_entries(alloc, out, methods.items())?;
                out.truth(alloc, *comparable)?;
                put_list(alloc, out, unions.items())
            }
            TypeEl::Union(terms) => {
                out.uint(alloc, 10)?;
                put_list(alloc, out, terms.items())
            }
            TypeEl::TypeParam(index) => {
                out.uint(alloc, 11)?;
                out.uint(alloc, *index)
            }
        }
    }

    fn decode(alloc: Global, input: &mut ElementIn<'_>) -> Result<TypeEl, ElementFault> {
        let value = type_of(alloc, input)?;
        input.finish()?;
        Ok(value)
    }

    ghost lawful = { type_el_lawful };
}
