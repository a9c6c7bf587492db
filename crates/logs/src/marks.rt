// The marks of the records after SL.
ghost use Rattle.std.specs.Prelude.{◌≡◌, drop};
ghost use Rattle.logs.specs.Told.{SaysMark};

use crate::faults::LogFault;

// What a mark says of the record.
#[derive(Clone, Copy)]
pub enum Mark {
    Enter,
    Leave,
    Reading,
    End,
}

// The mark that the bytes begin with. A second SL is not known.
pub(crate) fn mark_of(left: &[u8]) -> Result<Mark, LogFault>
    ensures { SaysMark result left.now }
{
    if left.len() < 2 {
        return Err(LogFault::Cut);
    }
    match &left[0..2] {
        b"EN" => Ok(Mark::Enter),
        b"LV" => Ok(Mark::Leave),
        b"RD" => Ok(Mark::Reading),
        b"ZZ" => Ok(Mark::End),
        _ => Err(LogFault::UnknownMark),
    }
}

// The bytes after the mark: none where it is not whole.
pub(crate) fn after_mark(left: &[u8]) -> &[u8]
    ensures { result.now ≡ drop 2 left.now }
{
    if left.len() < 2 { &[] } else { &left[2..] }
}
