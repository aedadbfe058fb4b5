//! What the scanner finds, said a second time: the values of literals, and faults.
#![tactic(auto)]

mod laws;

pub use laws::{literals_by_items, scan_faults_by_bytes};
