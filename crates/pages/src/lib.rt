// The lines of a replay's page, written into lent memory.
//
// `write_reading` writes what roster and pile mean: READ, N and d, and then each place with its key. `write_end` writes the line of an
// accepted log, `write_refusal` that of a refused one. Each is handed the page and the offset, and answers the offset after its lines.
//
// Promised, for every kind of key that prints, every pile, every page and every offset:
// - where as many bytes are free as the longest such lines have, the lines stand at the offset, and the answer is the offset after them;
// - where fewer are free, the answer is none; and every other byte of the page is as it was;
// - a reading over a roster whose live keys are lawful is the reading that the rules speak of (`lawful_readings_are_whole`).
// No call has a precondition. Nothing here allocates, recurses or panics.
//
// Definitions: the lines are in crates/replays/specs (Lines, Happenings); specs/Writing.antt says what then stands on a page,
// specs/Readings.antt what a reading is over any roster, and specs/Told.antt what the code's refusals say.

#![tactic(auto)]

pub mod endings;
mod lines;
pub mod readings;
pub mod refusal;

pub use endings::{write_end, write_refusal};
pub use readings::{lawful_readings_are_whole, write_reading};
pub use refusal::{Layer, Refusal};
