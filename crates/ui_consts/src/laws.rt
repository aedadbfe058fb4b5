// The laws of linked files.
ghost use Rattle.std.specs.Prelude.{◌≡◌, Some};
ghost use Rattle.ui_frame.specs.Container.{Parts};
ghost use Rattle.ui_exports.specs.Linked.{Linked};
ghost use Rattle.ui_consts.specs.Record.{StandsFor};
ghost use Rattle.ui_consts.specs.Reading.{record_in};
ghost use Rattle.ui_consts.specs.Size.{IsListed};

/// Parts that stand for what a linked file says are read as it, so they stand for nothing else.
pub fn reads_back()
    ensures { (parts : Parts) (l : Linked) → StandsFor parts l → record_in parts ≡ Some l }
{}

/// The packages below that are read ascend by path, with valid paths and fingerprints of eight
/// bytes.
pub fn lists_are_lists()
    ensures { (parts : Parts) (l : Linked) → record_in parts ≡ Some l → IsListed l.below }
{}
