use ui_base::{Items, Text};
use ui_edecl::{DictEl, ObjEl, ObjExtEl};
use ui_eobj::{PrivateRootEl, PublicRootEl};
use ui_etype::TypeEl;
use ui_strpos::{NameEl, PkgEl, PosBaseEl};

/// The elements of a file, by section. Those of one declaration stand at one number in `names`,
/// `objects`, `extensions` and `dictionaries`.
#[derive(Drop)]
pub struct File {
    pub texts: Items<Text>,
    pub public: PublicRootEl,
    pub private: PrivateRootEl,
    pub bases: Items<PosBaseEl>,
    pub packages: Items<PkgEl>,
    pub names: Items<NameEl>,
    pub types: Items<TypeEl>,
    pub objects: Items<ObjEl>,
    pub extensions: Items<ObjExtEl>,
    pub dictionaries: Items<DictEl>,
}
