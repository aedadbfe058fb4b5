// Laws of the list.
ghost use Rattle.ui_below.specs.Join.{JoinedAsMarked, JoinedIsListed, JoinedHolds, MarksThePaths};

/// Where each path has one fingerprint, and the package isn't below itself, the list is that of the
/// paths with their marks. The list ascends, and what holds of the claims holds in it.
pub fn list_of_paths()
    ensures marked { JoinedAsMarked }
    ensures listed { JoinedIsListed }
    ensures holds { JoinedHolds }
    ensures marks { MarksThePaths }
{}
