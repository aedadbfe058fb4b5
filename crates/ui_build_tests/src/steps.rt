//! The counter of steps.

ghost use Rattle.std.specs.Prelude.{◌≡◌, ◌<◌};

use std::marker::Brand;
use std::sync::ledger::{Blank, Ledger};
use ui_steps::Steps;

fn counts<L: Ledger>(blank: Blank)
    requires name { blank.name ≡ L.name }
    requires parts { (blank.parts ≡ L.parts) × (0 < L.parts) }
{
    let mut steps = Steps::<L>::new(blank);
    steps.tick();
}

#[test]
fn a_step_is_counted() {
    counts::<Brand>(Blank::new(1));
}
