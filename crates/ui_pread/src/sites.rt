//! Where expressions stand.

ghost use Rattle.std.specs.Prelude.{◌≡◌};
ghost use Rattle.ui_syntax.specs.Exprs as spec;
ghost use Rattle.ui_syntax.specs.Read.{place_of};

use ui_syntax::Site;
use ui_tree::PrefixOp;

pub(crate) fn place_of(header: bool) -> Site
    ensures { result ≡ place_of header }
{
    if header { Site::Header } else { Site::Plain }
}

// The site of an operand of an operator other than `*`.
pub(crate) fn operand_site(site: Site) -> Site
    ensures { result ≡ spec.operand_site site }
{
    match site {
        Site::Header => Site::Header,
        Site::Plain | Site::Wrapped | Site::Argument => Site::Plain,
    }
}

pub(crate) fn prefix_site(op: PrefixOp, site: Site) -> Site
    ensures { result ≡ spec.prefix_site op site }
{
    match op {
        PrefixOp::Deref => site,
        _ => operand_site(site),
    }
}

// Within parentheses.
pub(crate) fn inner_site(site: Site) -> Site
    ensures { result ≡ spec.inner_site site }
{
    match site {
        Site::Header | Site::Plain | Site::Wrapped => Site::Wrapped,
        Site::Argument => Site::Argument,
    }
}

pub(crate) fn takes_types(site: Site) -> bool
    ensures { result ≡ spec.takes_types site }
{
    matches!(site, Site::Wrapped | Site::Argument)
}

pub(crate) fn is_header(site: Site) -> bool
    ensures { result ≡ spec.is_header site }
{
    matches!(site, Site::Header)
}
