// What a linked file stands for.
use crate::package::Package;
use std::marker::Model;
use ui_base::Text;

/// A package below another: its path, the fingerprint of its linked file, and whether it is a
/// direct import.
#[derive(Debug, Drop)]
pub struct Below {
    pub path: Text,
    pub print: [u8; 8],
    pub direct: bool,
}

/// What a linked file stands for: what its package exports, and the packages below it, ascending by
/// path.
#[derive(Debug, Drop)]
pub struct Linked {
    pub package: Package,
    pub below: Vec<Below>,
}

impl Model for Linked {
    ghost use Rattle.ui_exports.specs.Linked.{Linked, linked_code, belows};

    ghost Value = { Linked };

    ghost coded = { linked_code };

    ghost view = { λ l. record { export = l.package; below = belows l.below } };
}
