// Places in a file.
ghost use Rattle.std.specs.Prelude.{◌≡◌};
ghost use Rattle.ui_forms.specs.Spots as spots;

use ui_base::Spot;

/// Whether a line and a column are such, which count from 1.
pub(crate) fn is_place(spot: Spot) -> bool
    ensures { result ≡ spots.is_place spot }
{
    spot.line >= 1 && spot.col >= 1
}
