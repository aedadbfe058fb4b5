//! The outside as the compiler sees it: a store of files under names, a source of bytes and sinks
//! of bytes. Each tells what it holds where it can, and counts the faults of its device.
#![tactic(auto)]

mod directory;
mod fault;
mod memory;
mod memory_sink;
mod memory_source;
mod sink;
mod source;
mod store;
mod streams;

pub use directory::DirStore;
pub use fault::{IoFault, StoreFault};
pub use memory::MemStore;
pub use memory_sink::MemSink;
pub use memory_source::MemSource;
pub use sink::{Sink, put_all};
pub use source::Source;
pub use store::{AskKind, Asked, Given, Heard, Store};
pub use streams::{InSource, OutSink};
pub use ui_base::NoMemory;
