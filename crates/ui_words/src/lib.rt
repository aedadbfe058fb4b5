//! What the parts of a file say: its texts, and by these the files, paths and names.
#![tactic(auto)]

mod words;

pub use words::{file_words, text_at};
