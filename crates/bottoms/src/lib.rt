// The two bottoms: piles that keep their own places, at most 64, in memory of their own.
//
// `Paired` takes entries and leaves, by random pairing over Algorithm R; `EntriesOnly` takes entries alone. They are one
// type, `Bottom`, at two kinds. Both count every class. Promised: each keeps the contract of `pile::Pile`, with the meaning
// that specs/Bottoms.antt gives it; what an opening gives is new; and `Paired` takes leaves and `EntriesOnly` takes none (`kinds_tell`).
// Nothing here allocates or panics.

#![tactic(auto)]

mod bottom;
pub mod entries_only;
pub mod laws;
pub mod paired;
mod places;

pub use bottom::{EntriesOnly, Paired};
pub use laws::kinds_tell;
