// Reading the change log: its settings, its records, and why a log is refused.
//
// `read_setting` reads the record SL that opens a log, `read_record` the record that the bytes left of a log begin with, for every kind
// of key, and `after_record` says what is left after it. `LogFault` is why a log is refused, and `ReplayFault` why a replay is: a fault
// of a key, an opening, a roster or a source travels up whole inside it.
//
// Promised, for every kind of key and for all bytes, of every content and length:
// - `read_setting` answers what `opening` of the crate `replays` says, with number, layer and byte where it refuses;
// - `read_record` answers what `record_in` of that crate says, and `after_record` leaves out exactly the bytes of that record;
// - the conversions between faults say exactly which fault comes, and each fault has one number.
// No call has a precondition. Nothing here allocates, recurses or panics.
//
// Definitions: specs/Faults.antt gives each fault its number, layer and byte of the tape, and specs/Told.antt says what answers say; the
// rules of the log are in crates/replays/specs (Marks, Settings, Records).

#![tactic(auto)]

pub mod faults;
pub mod laws;
mod marks;
pub mod records;
pub mod settings;

pub use faults::{LogFault, ReplayFault};
pub use laws::words_begin_with_numbers;
pub use records::{LogRecord, after_record, read_record};
pub use settings::{Kind, Setting, read_setting};
