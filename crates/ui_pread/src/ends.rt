//! Where the arguments of a call may end.

use crate::args::Arguments;
use ui_parse::Ends;

impl Ends for Arguments {
    ghost use Rattle.ui_pread.specs.Seen.{call_ending};

    ghost ending = { call_ending };

    fn may_end(&self) -> bool {
        true
    }

    // Nothing but the end follows `...`.
    fn must_end(&self) -> bool {
        self.spread
    }
}
