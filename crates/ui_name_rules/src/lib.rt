//! The rules over a whole file that rest on names: numbers of type arguments, orders, stubs, and
//! the path.
#![tactic(auto)]

mod count_rule;
mod in_order;
mod names;
mod path_rule;
mod stub_rule;

pub use count_rule::WrongCount;
pub use path_rule::WrongPath;
pub use stub_rule::StubLeft;
