// Laws of builds, each a function whose contract is the statement.
ghost use Rattle.ui_build.specs.Laws.{RefusesBySources, SourcesDecide, TurnsSuffice};

use ui_order::{discovery_keeps, order_is_whole};

/// Over told files: with more turns than one for each package that may be found, discovery does the
/// same.
pub fn turns_suffice()
    ensures { TurnsSuffice }
{
    discovery_keeps();
    order_is_whole();
}

/// Over told files: what a build does is decided by the sources of packages.
pub fn sources_decide()
    ensures { SourcesDecide }
{}

/// Over told files: a build is refused by sources, and never because a linked file is missing, bad
/// or stale.
pub fn refuses_by_sources()
    ensures { RefusesBySources }
{
    discovery_keeps();
    order_is_whole();
}
