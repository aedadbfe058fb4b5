// The constants of imports that the terms of a source may name.
ghost use Rattle.std.specs.Prelude.{◌≡◌, IfOk};
ghost use Rattle.std.specs.Option.{option_copied};
ghost use Rattle.ui_forms.specs.Scope.{ArePlaces, AreSegments, selection_of};
ghost use Rattle.ui_forms.specs.Verdict.{environment_of, import_by, package_of};

use crate::numbers::Numbers;
use crate::part::ImportPath;
use crate::words::last_segment;
use std::alloc::Global;
use std::marker::Model;
use ui_base::NoMemory;
use ui_exports::Linked;

/// The constants of a source's imports, by the last segments of their paths.
#[derive(Drop)]
pub(crate) struct Scope<'a> {
    linked: &'a [Linked],
    places: &'a Numbers,
    imports: &'a [ImportPath],
    segments: Numbers,
}

impl<'a> Model for Scope<'a> {
    ghost use Rattle.ui_forms.specs.Scope.{Scope, scope_code};

    ghost Value = { Scope };

    ghost coded = { scope_code };

    ghost use Rattle.ui_forms.specs.Scope.{ArePlaces, AreSegments};

    ghost view = { λ s. record { linked = s.linked.now; imports = s.imports.now } };

    ghost invariant = { λ s. ArePlaces s.places.now s.linked.now
        × AreSegments s.segments s.imports.now };
}

impl<'a> Scope<'a> {
    /// The constants of these imports, by what their linked files stand for and the places of these
    /// by their paths.
    pub(crate) fn new(
        alloc: Global,
        linked: &'a [Linked],
        places: &'a Numbers,
        imports: &'a [ImportPath],
    ) -> Result<Scope<'a>, NoMemory>
        requires { ArePlaces places.now linked.now }
        ensures { IfOk result (λ scope. scope
            ≡ record { linked = linked.now; imports = imports.now }) }
    {
        let segments = segments_of(alloc, imports)?;
        Ok(Scope {
            linked,
            places,
            imports,
            segments,
        })
    }

    /// The value of a constant of the import that has the last segment.
    pub(crate) fn value(&self, segment: &[u8], name: &[u8]) -> Option<u128>
        ensures { result ≡ selection_of self.now segment.now name.now }
    {
        match import_at(&self.segments, self.imports, segment) {
            Some(import) => value_at(self.places, self.linked, import.path.bytes(), name),
            None => None,
        }
    }
}

/// The places of packages by their paths; of two with one path, that of the first.
pub(crate) fn places_of(alloc: Global, imports: &[Linked]) -> Result<Numbers, NoMemory>
    ensures { IfOk result (λ places. ArePlaces places imports.now) }
{
    let mut places = Numbers::new(alloc);
    let mut place = imports.len();
    while place > 0 {
        place -= 1;
        let linked = &imports[place];
        places.add(linked.package.path(), place)?;
    }
    Ok(places)
}

// The places of imports by the last segments of their paths; of two with one, that of the first.
fn segments_of(alloc: Global, imports: &[ImportPath]) -> Result<Numbers, NoMemory>
    ensures { IfOk result (λ segments. AreSegments segments imports.now) }
{
    let mut segments = Numbers::new(alloc);
    let mut place = imports.len();
    while place > 0 {
        place -= 1;
        let import = &imports[place];
        segments.add(last_segment(import.path.bytes()), place)?;
    }
    Ok(segments)
}

// The import that has the last segment.
fn import_at<'a>(
    segments: &Numbers,
    imports: &'a [ImportPath],
    segment: &[u8],
) -> Option<&'a ImportPath>
    requires { AreSegments segments.now imports.now }
    ensures { option_copied result ≡ import_by imports.now segment.now }
{
    match segments.number(segment) {
        Some(place) => imports.get(place),
        None => None,
    }
}

// The package of the path.
fn package_at<'a>(places: &Numbers, imports: &'a [Linked], path: &[u8]) -> Option<&'a Linked>
    requires { ArePlaces places.now imports.now }
    ensures { option_copied result ≡ package_of imports.now path.now }
{
    match places.number(path) {
        Some(place) => imports.get(place),
        None => None,
    }
}

// The value of a constant of the package of the path.
fn value_at(places: &Numbers, imports: &[Linked], path: &[u8], name: &[u8]) -> Option<u128>
    requires { ArePlaces places.now imports.now }
    ensures { result ≡ environment_of imports.now path.now name.now }
{
    match package_at(places, imports, path) {
        Some(linked) => linked.package.value(name),
        None => None,
    }
}
