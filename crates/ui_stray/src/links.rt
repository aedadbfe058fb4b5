ghost use Rattle.std.specs.Prelude.{◌≡◌, ◌<◌, ◌++◌, [], length, map, get_or, IfOk, OnOk};
ghost use Rattle.std.specs.List.{range_with_len};
ghost use Rattle.ui_frame.specs.Container.{section};
ghost use Rattle.ui_frame.specs.Sections.{number_of};
ghost use Rattle.ui_stray.specs.Links as specs;
ghost use Rattle.ui_stray.specs.Links.{AreLinked, AreStarts, table_at, target_number};
ghost use Rattle.ui_stray.specs.Links.{targets_at, targets_beside};

use crate::table::{number, put_table};
use std::alloc::Global;
use ui_base::Items;
use ui_file_rules::section_at;
use ui_frame::{Frame, NoMemory, Section};

/// Where the sections start, where all elements are numbered through.
#[tactic(auto, using(crate::proofs::Loops::none_started, crate::proofs::Loops::one_started, crate::proofs::Loops::all_started))]
pub(crate) fn starts(alloc: Global, frame: &Frame<'_>) -> Result<Vec<usize>, NoMemory>
    ensures { IfOk result (λ v. AreStarts frame.now v.items) }
{
    let mut starts = Vec::new(alloc);
    let mut total = 0;
    for n in 0..10u32 {
        starts.push(total)?;
        total += frame.count(section_at(n)) as usize;
    }
    Ok(starts)
}

// Appends what the table of an element has.
#[tactic(auto, using(crate::proofs::Puts::no_element))]
fn put_element(
    starts: &[usize],
    frame: &Frame<'_>,
    s: Section,
    k: u32,
    out: &mut Vec<usize>,
) -> Result<(), NoMemory>
    ensures { OnOk result (out.new.items
        ≡ out.old.items ++ map (target_number starts.now)
        (table_at (get_or (section s frame.now) k []))) }
{
    match frame.element(s, k) {
        Some(bytes) => put_table(starts, bytes, out),
        None => Ok(()),
    }
}

// Appends what an element uses; a String has no table.
#[tactic(auto, using(crate::proofs::Puts::text_uses, crate::proofs::Puts::other_uses))]
fn put_uses(
    starts: &[usize],
    frame: &Frame<'_>,
    s: Section,
    k: u32,
    out: &mut Vec<usize>,
) -> Result<(), NoMemory>
    ensures { OnOk result (out.new.items
        ≡ out.old.items ++ map (target_number starts.now)
        (targets_at s (get_or (section s frame.now) k []))) }
{
    match s {
        Section::Str => Ok(()),
        _ => put_element(starts, frame, s, k, out),
    }
}

// Appends the Name, the ObjExt and the ObjDict of a number.
fn put_three(starts: &[usize], k: u32, out: &mut Vec<usize>) -> Result<(), NoMemory>
    ensures { OnOk result (out.new.items
        ≡ out.old.items ++ map (target_number starts.now) (targets_beside Section.Obj k)) }
{
    out.push(number(starts, 4, k as u64))?;
    out.push(number(starts, 7, k as u64))?;
    out.push(number(starts, 8, k as u64))?;
    Ok(())
}

// Appends the elements of an Obj's number beside it.
#[tactic(auto, using(crate::proofs::Puts::object_beside, crate::proofs::Puts::none_beside))]
fn put_beside(starts: &[usize], s: Section, k: u32, out: &mut Vec<usize>) -> Result<(), NoMemory>
    ensures { OnOk result (out.new.items
        ≡ out.old.items ++ map (target_number starts.now) (targets_beside s k)) }
{
    match s {
        Section::Obj => put_three(starts, k, out),
        _ => Ok(()),
    }
}

// What an element leads to.
#[tactic(auto, using(crate::proofs::Puts::both_put))]
fn links_of(
    alloc: Global,
    starts: &[usize],
    frame: &Frame<'_>,
    s: Section,
    k: u32,
) -> Result<Items<usize>, NoMemory>
    ensures { IfOk result (λ v. v ≡ specs.links_of starts.now frame.now s k) }
{
    let mut out = Vec::new(alloc);
    put_uses(starts, frame, s, k, &mut out)?;
    put_beside(starts, s, k, &mut out)?;
    Ok(Items::new(out))
}

// Appends what the elements of a section lead to.
#[tactic(auto, using(crate::proofs::Puts::one_row, crate::proofs::Puts::all_rows))]
fn put_section(
    alloc: Global,
    starts: &[usize],
    frame: &Frame<'_>,
    s: Section,
    links: &mut Vec<Items<usize>>,
) -> Result<(), NoMemory>
    ensures { OnOk result (links.new.items
        ≡ links.old.items ++ specs.section_links starts.now frame.now s) }
{
    for k in 0..frame.count(s) {
        let found = links_of(alloc, starts, frame, s, k)?;
        links.push(found)?;
    }
    Ok(())
}

/// What all elements lead to.
#[tactic(auto, using(crate::proofs::Loops::none_linked, crate::proofs::Loops::more_linked, crate::proofs::Loops::all_linked))]
pub(crate) fn all_links(
    alloc: Global,
    starts: &[usize],
    frame: &Frame<'_>,
) -> Result<Vec<Items<usize>>, NoMemory>
    ensures { IfOk result (λ v. AreLinked starts.now frame.now 10 v.items) }
{
    let mut links = Vec::new(alloc);
    for n in 0..10u32 {
        put_section(alloc, starts, frame, section_at(n), &mut links)?;
    }
    Ok(links)
}
