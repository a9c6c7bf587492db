// The records of a log after SL.
ghost use Rattle.std.specs.Prelude.{◌≡◌, ℕ, List, drop};
ghost use Rattle.logs.specs.Told.{record_told};
ghost use Rattle.replays.specs.Kinds.{kind_by};
ghost use Rattle.replays.specs.Records.{record_in, size};

use crate::faults::ReplayFault;
use crate::marks::{Mark, after_mark, mark_of};
use keys::Key;

// What a record asks for.
#[derive(Clone, Copy)]
pub enum LogRecord<K> {
    Enter(K),
    Leave(K),
    Reading,
    End,
}

// The record that the bytes left of a log begin with, however its keys print.
pub fn read_record<K: Key>(left: &[u8]) -> Result<LogRecord<K>, ReplayFault>
    ensures { (printed : K → List ℕ) → record_told K.view result ≡ record_in (kind_by K.view K.reading printed) left.now }
{
    match mark_of(left)? {
        Mark::Enter => Ok(LogRecord::Enter(K::read(after_mark(left))?)),
        Mark::Leave => Ok(LogRecord::Leave(K::read(after_mark(left))?)),
        Mark::Reading => Ok(LogRecord::Reading),
        Mark::End => Ok(LogRecord::End),
    }
}

// The bytes after that record; where there is none, those after its mark.
pub fn after_record<K: Key>(left: &[u8]) -> &[u8]
    ensures { (printed : K → List ℕ) → result.now ≡ drop (size (record_in (kind_by K.view K.reading printed) left.now)) left.now }
{
    let fields = after_mark(left);
    let Ok(mark) = mark_of(left) else {
        return fields;
    };
    match mark {
        Mark::Enter | Mark::Leave => K::rest(fields),
        Mark::Reading | Mark::End => fields,
    }
}
