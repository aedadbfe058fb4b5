//! Where lists may end.

use crate::params::Params;
use crate::sub::{Groups, Subs, TypeSubs};
use ui_parse::Ends;
use ui_syntax::Style;

impl Ends for Params {
    ghost use Rattle.ui_ptype.specs.Seen.{params_ending};

    ghost ending = { params_ending };

    // Names wait for a type where another parameter has a name.
    fn may_end(&self) -> bool {
        self.waiting.is_empty() || !matches!(self.style, Style::Named)
    }

    fn must_end(&self) -> bool {
        false
    }
}

impl Ends for Groups {
    ghost use Rattle.ui_syntax.specs.Types.{any_end};

    ghost ending = { any_end };

    fn may_end(&self) -> bool {
        true
    }

    fn must_end(&self) -> bool {
        false
    }
}

impl Ends for TypeSubs {
    ghost use Rattle.ui_syntax.specs.Types.{any_end};

    ghost ending = { any_end };

    fn may_end(&self) -> bool {
        true
    }

    fn must_end(&self) -> bool {
        false
    }
}

impl Ends for Subs {
    ghost use Rattle.ui_syntax.specs.Types.{any_end};

    ghost ending = { any_end };

    fn may_end(&self) -> bool {
        true
    }

    fn must_end(&self) -> bool {
        false
    }
}
