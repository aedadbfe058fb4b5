ghost use Rattle.std.specs.Prelude.{◌≡◌, ◌<◌, [], IfOk, length, get_or};
ghost use Rattle.ui_frame.specs.Container.{section};
ghost use Rattle.ui_strpos.specs.Contexts.{context};
ghost use Rattle.ui_strpos.specs.Reading.{Gives_value};
ghost use Rattle.ui_strpos.specs.Format.{element_in};
ghost use Rattle.ui_frame.specs.Sections.{number_of};
ghost use Rattle.ui_file.specs.Files.{section_in, one_placed};
ghost use Rattle.ui_sections.specs.Told.{Tells};
ghost use Rattle.ui_sections.specs.Spelled.{IsElement, IsSection};

use crate::fault::{ValidFault, at_element};
use crate::shapes::Shapes;
use std::alloc::Global;
use ui_frame::{Frame, Section};
use ui_strpos::{Element, ElementFault, Shape, read_element};

// An element that there is.
fn read_one<'a, E: Element + Drop>(
    alloc: Global,
    frame: &'a Frame<'a>,
    s: Section,
    k: u32,
    shape: &Shape,
) -> Result<E, ElementFault>
    requires { k < length (section s frame.now) }
    ensures read { Gives_value (λ e. e) result
        (element_in E.format (context k shape.now frame.now) (get_or (section s frame.now) k [])) }
    ensures found { IfOk result (λ e. IsElement E.format s shape.now frame.now k e) }
{
    match frame.element(s, k) {
        Some(bytes) => read_element::<E>(alloc, bytes, k, frame, shape),
        None => unreachable!(),
    }
}

/// An element that there is, by its shape; or its first fault, at its place.
#[tactic(auto, using(crate::proofs::Steps::placed_fault, crate::proofs::Steps::placed_value))]
pub(crate) fn read_at<'a, E: Element + Drop, S: Shapes>(
    alloc: Global,
    frame: &'a Frame<'a>,
    s: Section,
    k: u32,
    shapes: &S,
) -> Result<E, ValidFault>
    requires { k < length (section s frame.now) }
    ensures read { Tells (λ e. e) result
        (one_placed (number_of s) k (element_in E.format
        (context k (S.shape_of shapes.now k) frame.now) (get_or (section s frame.now) k []))) }
    ensures found { IfOk result (λ e. IsElement E.format s
        (S.shape_of shapes.now k) frame.now k e) }
{
    match read_one::<E>(alloc, frame, s, k, &shapes.shape(k)) {
        Ok(element) => Ok(element),
        Err(fault) => Err(at_element(s, k, fault)),
    }
}

/// All elements of a section, each by its shape; or the first that fails.
pub(crate) fn read_section<'a, E: Element + Drop, S: Shapes>(
    alloc: Global,
    frame: &'a Frame<'a>,
    s: Section,
    shapes: &S,
) -> Result<Vec<E>, ValidFault>
    ensures read { Tells (λ v. v.items) result
        (section_in E.format s (S.shape_of shapes.now) frame.now) }
    ensures found { IfOk result (λ v. IsSection E.format s
        (S.shape_of shapes.now) frame.now v.items) }
{
    let mut elements = Vec::new(alloc);
    for k in 0..frame.count(s) {
        match read_at::<E, S>(alloc, frame, s, k, shapes) {
            Ok(element) => match elements.push(element) {
                Ok(()) => (),
                Err(_) => return Err(ValidFault::NoMemory),
            },
            Err(fault) => return Err(fault),
        }
    }
    Ok(elements)
}
