//! Which packages a build needs and in which order: discovery along imports, cycles, and the build
//! order. It knows paths alone, and no store or source. The order and the cycles are also there for
//! plain numbers with links.
#![tactic(auto)]

mod cycle;
mod discovery;
mod laws;
mod order;
mod plan;
mod table;

pub use cycle::first_on_cycle;
pub use discovery::{Discovery, PACKAGE_LIMIT};
pub use laws::{cycles_are_cycles, discovery_keeps, order_is_whole};
pub use order::Order;
pub use plan::in_order;
pub use ui_base::NoMemory;
