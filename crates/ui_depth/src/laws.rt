// Laws, each a function whose contract is the statement.
ghost use Rattle.ui_depth.specs.Laws.{TellsExprs, TellsTypes, TellsSigs, Missed, ShowsDepth};
ghost use Rattle.ui_depth.specs.Laws.{TellsFiles, TellsFronts};

/// Where a reader of a budget faults, the fault is one of depth (a form without a limit begins with
/// its word too) exactly where the reader that has four levels more reads farther: it succeeds, or
/// its own fault leaves fewer words.
pub fn faults_of_depth()
    ensures expressions { TellsExprs }
    ensures types { TellsTypes }
    ensures signatures { TellsSigs }
{}

/// Where a file's reader faults, a reading of another limit that goes farther shows a fault of
/// depth. A limit of at least eight times the number of words and sixteen shows each: the fault is
/// one of depth exactly where that reading goes farther. The words up to the fault's own are enough
/// for it.
pub fn file_faults_of_depth()
    ensures shows { ShowsDepth }
    ensures files { TellsFiles }
    ensures fronts { TellsFronts }
{}

/// Files have faults of depth that four levels more don't show, and such that sixteen don't.
pub fn no_fixed_number()
    ensures four { Missed 4 }
    ensures sixteen { Missed 16 }
{}
