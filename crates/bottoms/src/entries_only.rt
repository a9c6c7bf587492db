// The bottom that takes none, by its own path too.
pub use crate::bottom::EntriesOnly;
