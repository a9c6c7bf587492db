// Why a log or a replay is refused. specs/Faults.antt gives each fault its number, its layer, its byte of the tape and its words.
ghost use Rattle.std.specs.Prelude.{◌≡◌, ℕ, Some};
ghost use Rattle.logs.specs.Faults.{log_fault_number, log_fault_text, fault_refusal, from_entering, replay_fault_text};
ghost use Rattle.logs.specs.declared.faults.ReplayFault.TheVariants.{Log, Capacity, Opening, Key, Roster, Source};

use keys::KeyFault;
use pile::OpeningFault;
use roster::{CapacityFault, EnterFault, RosterFault};
use sources::SourceFault;
use std::fmt;

// Why a log is refused.
#[derive(Clone, Copy)]
pub enum LogFault {
    // the lent page or the lent records are too short
    Room,
    // the log or the tape is too long
    TooLong,
    // a mark or the fields after it are not whole, or the end is missing
    Cut,
    // the mark, or the kind of key, is not known
    UnknownMark,
    // more readings than 64
    TooManyReadings,
    // the log goes on after its end
    BytesAfterEnd,
}

// Why a replay is refused: by the log, or by the layer whose fault is inside.
#[derive(Clone, Copy)]
pub enum ReplayFault {
    Log(LogFault),
    Capacity(CapacityFault),
    Opening(OpeningFault),
    Key(KeyFault),
    Roster(RosterFault),
    Source(SourceFault),
    // the log is at its end and the tape is not, with the first byte of the tape that is not used
    TapeLeft(usize),
}

// A fault of a lower layer travels up whole inside the fault above it.
impl From<LogFault> for ReplayFault {
    ghost from_gives = { λ fault r. r ≡ Log fault };

    fn from(fault: LogFault) -> ReplayFault {
        ReplayFault::Log(fault)
    }
}

impl From<CapacityFault> for ReplayFault {
    ghost from_gives = { λ fault r. r ≡ Capacity fault };

    fn from(fault: CapacityFault) -> ReplayFault {
        ReplayFault::Capacity(fault)
    }
}

impl From<OpeningFault> for ReplayFault {
    ghost from_gives = { λ fault r. r ≡ Opening fault };

    fn from(fault: OpeningFault) -> ReplayFault {
        ReplayFault::Opening(fault)
    }
}

impl From<KeyFault> for ReplayFault {
    ghost from_gives = { λ fault r. r ≡ Key fault };

    fn from(fault: KeyFault) -> ReplayFault {
        ReplayFault::Key(fault)
    }
}

impl From<RosterFault> for ReplayFault {
    ghost from_gives = { λ fault r. r ≡ Roster fault };

    fn from(fault: RosterFault) -> ReplayFault {
        ReplayFault::Roster(fault)
    }
}

impl From<SourceFault> for ReplayFault {
    ghost from_gives = { λ fault r. r ≡ Source fault };

    fn from(fault: SourceFault) -> ReplayFault {
        ReplayFault::Source(fault)
    }
}

// An enter's fault is the roster's or the source's.
impl From<EnterFault> for ReplayFault {
    ghost from_gives = { λ fault r. r ≡ from_entering fault };

    fn from(fault: EnterFault) -> ReplayFault {
        match fault {
            EnterFault::Roster(fault) => ReplayFault::Roster(fault),
            EnterFault::Source(fault) => ReplayFault::Source(fault),
        }
    }
}

impl LogFault {
    pub fn number(self) -> u8
        ensures { result ≡ log_fault_number self }
    {
        match self {
            LogFault::Room => 21,
            LogFault::TooLong => 22,
            LogFault::Cut => 23,
            LogFault::UnknownMark => 24,
            LogFault::TooManyReadings => 25,
            LogFault::BytesAfterEnd => 26,
        }
    }
}

impl ReplayFault {
    pub fn number(self) -> u8
        ensures { (byte : ℕ) → result ≡ (fault_refusal byte self).number }
    {
        match self {
            ReplayFault::Log(fault) => fault.number(),
            ReplayFault::Capacity(fault) => fault.number(),
            ReplayFault::Opening(fault) => fault.number(),
            ReplayFault::Key(KeyFault::Unlawful) => 6,
            // fields that are not whole are the log's fault
            ReplayFault::Key(KeyFault::Short) => LogFault::Cut.number(),
            ReplayFault::Roster(fault) => fault.number(),
            ReplayFault::Source(fault) => fault.number(),
            ReplayFault::TapeLeft(_) => 27,
        }
    }
}

impl fmt::Display for LogFault {
    ghost output = { λ fault. Some (log_fault_text fault) };

    fn fmt<W: fmt::Write>(&self, f: &mut fmt::Formatter<W>) -> fmt::Result {
        f.pad(match self {
            LogFault::Room => "21: the page or the records are too short",
            LogFault::TooLong => "22: the log or the tape is too long",
            LogFault::Cut => "23: the log ends before a record is whole",
            LogFault::UnknownMark => "24: the mark or the kind of key is not known",
            LogFault::TooManyReadings => "25: the log has more than 64 readings",
            LogFault::BytesAfterEnd => "26: the log has bytes after its end",
        })
    }
}

impl fmt::Display for ReplayFault {
    ghost output = { λ fault. Some (replay_fault_text fault) };

    fn fmt<W: fmt::Write>(&self, f: &mut fmt::Formatter<W>) -> fmt::Result {
        match self {
            ReplayFault::Log(fault) => write!(f, "{fault}"),
            ReplayFault::Capacity(fault) => write!(f, "{fault}"),
            ReplayFault::Opening(fault) => write!(f, "{fault}"),
            ReplayFault::Key(KeyFault::Unlawful) => write!(f, "{}", KeyFault::Unlawful),
            // a key that is cut prints no number of its own
            ReplayFault::Key(KeyFault::Short) => write!(f, "{}", LogFault::Cut),
            ReplayFault::Roster(fault) => write!(f, "{fault}"),
            ReplayFault::Source(fault) => write!(f, "{fault}"),
            ReplayFault::TapeLeft(byte) => write!(f, "27: the tape has bytes left (byte {byte})"),
        }
    }
}
