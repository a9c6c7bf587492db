// The bottom that takes leaves, by its own path too.
pub use crate::bottom::Paired;
