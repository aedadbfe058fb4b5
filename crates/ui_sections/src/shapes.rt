ghost use Rattle.ui_strpos.specs.declared.shape.Shape.{Shape};
ghost use Rattle.std.specs.Prelude.{◌≡◌, ℕ, ◌-◌, ◌^◌, [], get_or, length, min};
ghost use Rattle.ui_frame.specs.Container.{section as section_of};
ghost use Rattle.ui_strpos.specs.Elements.{code_of};
ghost use Rattle.ui_file.specs.Files as files;
ghost use Rattle.ui_file.specs.Files.{no_name};

use crate::params::params_of;
use ui_edecl::ObjEl;
use ui_frame::{Frame, Section};
use ui_strpos::{NameEl, NameKind, Shape};

/// The shapes by which the elements of a section are read.
pub(crate) trait Shapes {
    ghost shape_of: { Self → ℕ → Shape };

    /// The shape of an element.
    fn shape(&self, k: u32) -> Shape
        ensures { result ≡ shape_of self.now k };
}

/// One shape for all.
#[derive(Clone, Copy)]
pub(crate) struct Plain {}

impl Shapes for Plain {
    ghost use Rattle.ui_file.specs.Files.{any_shape};

    ghost shape_of = { λ s. any_shape };

    fn shape(&self, _k: u32) -> Shape {
        Shape {
            code: 0,
            params: 0,
            methods: 0,
        }
    }
}

fn name_code(names: &[NameEl], k: u32) -> u32
    ensures { result ≡ code_of (get_or names.now k no_name).kind }
{
    match names.get(k as usize) {
        Some(name) => name.kind.code(),
        None => NameKind::Stub.code(),
    }
}

#[tactic(auto, using(crate::proofs::Fronts::none_there))]
fn param_count(frame: &Frame<'_>, k: u32) -> u32
    ensures { result ≡ files.params_of (get_or (section_of Section.ObjDict frame.now) k []) }
{
    match frame.element(Section::ObjDict, k) {
        Some(bytes) => params_of(bytes),
        None => 0,
    }
}

/// Those of Objs.
#[derive(Clone, Copy)]
pub(crate) struct ObjectShapes<'a> {
    pub(crate) names: &'a [NameEl],
    pub(crate) frame: &'a Frame<'a>,
}

impl Shapes for ObjectShapes<'_> {
    ghost use Rattle.ui_frame.specs.Container.{section};
    ghost use Rattle.ui_frame.specs.declared.section.Section.TheVariants.{ObjDict};
    ghost use Rattle.ui_file.specs.Files.{object_shape};

    ghost shape_of = { λ s. object_shape s.names.now (section ObjDict s.frame.now) };

    fn shape(&self, k: u32) -> Shape {
        Shape {
            code: name_code(self.names, k),
            params: param_count(self.frame, k),
            methods: 0,
        }
    }
}

fn method_count(objects: &[ObjEl], k: u32) -> u32
    ensures { result ≡ min (files.methods_in (get_or objects.now k ObjEl.Stub)) (2 ^ 32 - 1) }
{
    match objects.get(k as usize) {
        Some(ObjEl::Defined { methods, .. }) => {
            methods.items().len().min(u32::MAX as usize) as u32
        }
        _ => 0,
    }
}

/// Those of ObjExts.
#[derive(Clone, Copy)]
pub(crate) struct ExtensionShapes<'a> {
    pub(crate) names: &'a [NameEl],
    pub(crate) objects: &'a [ObjEl],
    pub(crate) frame: &'a Frame<'a>,
}

impl Shapes for ExtensionShapes<'_> {
    ghost use Rattle.ui_frame.specs.Container.{section};
    ghost use Rattle.ui_frame.specs.declared.section.Section.TheVariants.{ObjDict};
    ghost use Rattle.ui_file.specs.Files.{extension_shape};

    ghost shape_of = { λ s. extension_shape s.names.now
        (section ObjDict s.frame.now) s.objects.now };

    fn shape(&self, k: u32) -> Shape {
        Shape {
            code: name_code(self.names, k),
            params: param_count(self.frame, k),
            methods: method_count(self.objects, k),
        }
    }
}
