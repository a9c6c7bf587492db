// Where draws come from: one trait, `Source`, and the two sources that keep it.
//
// `Tape` reads draws from bytes, `Generator` makes them from a seed. A source means a course: for each list of radices the
// draws that it gives in order, up to the first refusal. Promised: for every source and every input a draw answers the
// first of the course, the course afterwards is what followed it, each draw is below its radix, and a refusal changes
// nothing; `draw_all` draws for a list over any source. `write_record` writes the receipt of an entry as a tape record,
// and `laws` has that such records read back. Nothing here allocates, recurses or panics.
//
// Definitions: specs/Courses.antt says what a course is, specs/Tapes.antt what a tape gives and specs/Generators.antt what
// a generator gives, specs/Records.antt what is written, specs/Drawing.antt what drawing for a list leaves,
// specs/Answers.antt which number, byte and words each fault has, so that what a fault prints is proved too.

#![tactic(auto)]

pub mod drawing;
pub mod faults;
pub mod generator;
pub mod laws;
mod records;
pub mod source;
pub mod tape;
#[cfg(test)]
mod tests;

pub use self::generator::{Generator, ask_seed};
pub use self::source::Source;
pub use self::tape::Tape;
pub use drawing::{Drawn, draw_all};
pub use faults::{SeedFault, SourceFault, WriteFault};
pub use records::write_record;
