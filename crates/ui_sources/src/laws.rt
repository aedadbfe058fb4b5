// Laws, each a function whose contract is the statement.
ghost use Rattle.ui_sources.specs.Sources.{PathsAreValid};

/// The paths of the imports in trees that are given are valid.
pub fn import_paths_are_valid()
    ensures { PathsAreValid }
{}
