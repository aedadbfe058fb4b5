// Laws of forms and verdicts.
ghost use Rattle.ui_forms.specs.Laws.{ImportsAreFound, FormsAreSmall, PathsAreValid, PathIsKept};
ghost use Rattle.ui_forms.specs.Laws.{ExportsAreSmall, ExportHasPath};
ghost use Rattle.ui_forms.specs.Verdict.{IsLocal};

/// A form has its package's path, and imports what its sources import, by valid paths. It is small,
/// and so is what the package exports, in every environment: it can be written.
pub fn accepted_forms()
    ensures path { PathIsKept }
    ensures found { ImportsAreFound }
    ensures valid { PathsAreValid }
    ensures small { FormsAreSmall }
    ensures export { ExportsAreSmall }
    ensures export_path { ExportHasPath }
{}

/// Two environments that agree on the imports of a form give it one verdict.
pub fn verdict_is_local()
    ensures { IsLocal }
{}
