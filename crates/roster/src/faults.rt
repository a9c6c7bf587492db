// Why a roster, or its opening, refuses. specs/Numbers.antt gives each fault its number and its words.
// Numbers are asked for by name, and are no conversions into a byte, which would not say what the byte is.
ghost use Rattle.std.specs.Prelude.{◌≡◌, Some};
ghost use Rattle.roster.specs.Numbers.{roster_fault_number, roster_fault_text, capacity_fault_number, capacity_fault_text, enter_fault_number, enter_fault_text};
ghost use Rattle.roster.specs.declared.faults.RosterFault.TheVariants.{Pile};
ghost use Rattle.roster.specs.declared.faults.EnterFault.TheVariants.{Roster, Source};

use pile::PileFault;
use sources::SourceFault;
use std::fmt;

// Why a call of a roster is refused.
#[derive(Clone, Copy)]
pub enum RosterFault {
    // the key is not lawful
    Unlawful,
    // an entry is open
    EntryOpen,
    // the key is live already
    AlreadyLive,
    // as many keys are live as the roster holds
    NoRoom,
    // no open entry has the slip's tag, class and radix, or the pile calls for another radix
    OtherSlip,
    // the draw is not below the radix
    DrawTooLarge,
    // the key is not live
    NotLive,
    // the pile refuses
    Pile(PileFault),
}

// Why a capacity does not pass before an opening: it is not 1 to 1,024, or there are fewer records.
#[derive(Clone, Copy)]
pub enum CapacityFault {
    Capacity,
}

// Why an enter is refused: its admit is, or its source refuses.
#[derive(Clone, Copy)]
pub enum EnterFault {
    Roster(RosterFault),
    // with its number and byte
    Source(SourceFault),
}

// A fault of a lower layer travels up whole inside the fault above it. By hand, since a derive would not promise which fault comes.
impl From<PileFault> for RosterFault {
    ghost from_gives = { λ fault r. r ≡ Pile fault };

    fn from(fault: PileFault) -> RosterFault {
        RosterFault::Pile(fault)
    }
}

impl From<RosterFault> for EnterFault {
    ghost from_gives = { λ fault r. r ≡ Roster fault };

    fn from(fault: RosterFault) -> EnterFault {
        EnterFault::Roster(fault)
    }
}

impl From<SourceFault> for EnterFault {
    ghost from_gives = { λ fault r. r ≡ Source fault };

    fn from(fault: SourceFault) -> EnterFault {
        EnterFault::Source(fault)
    }
}

impl RosterFault {
    pub fn number(self) -> u8
        ensures { result ≡ roster_fault_number self }
    {
        match self {
            RosterFault::Unlawful => 6,
            RosterFault::EntryOpen => 7,
            RosterFault::AlreadyLive => 8,
            RosterFault::NoRoom => 9,
            RosterFault::OtherSlip => 11,
            RosterFault::DrawTooLarge => 12,
            RosterFault::NotLive => 13,
            RosterFault::Pile(fault) => fault.number(),
        }
    }
}

impl CapacityFault {
    pub fn number(self) -> u8
        ensures { result ≡ capacity_fault_number self }
    {
        match self {
            CapacityFault::Capacity => 1,
        }
    }
}

impl EnterFault {
    pub fn number(self) -> u8
        ensures { result ≡ enter_fault_number self }
    {
        match self {
            EnterFault::Roster(fault) => fault.number(),
            EnterFault::Source(fault) => fault.number(),
        }
    }
}

impl fmt::Display for RosterFault {
    ghost output = { λ fault. Some (roster_fault_text fault) };

    fn fmt<W: fmt::Write>(&self, f: &mut fmt::Formatter<W>) -> fmt::Result {
        match self {
            RosterFault::Unlawful => f.pad("6: the key is not lawful"),
            RosterFault::EntryOpen => f.pad("7: an entry is open"),
            RosterFault::AlreadyLive => f.pad("8: the key is live already"),
            RosterFault::NoRoom => f.pad("9: the roster has no room"),
            RosterFault::OtherSlip => f.pad(
                "11: the slip is not the open entry's, or the pile calls for another radix",
            ),
            RosterFault::DrawTooLarge => f.pad("12: the draw is not below the radix"),
            RosterFault::NotLive => f.pad("13: the key is not live"),
            RosterFault::Pile(fault) => write!(f, "{fault}"),
        }
    }
}

impl fmt::Display for CapacityFault {
    ghost output = { λ fault. Some (capacity_fault_text fault) };

    fn fmt<W: fmt::Write>(&self, f: &mut fmt::Formatter<W>) -> fmt::Result {
        match self {
            CapacityFault::Capacity => {
                f.pad("1: the capacity is not 1 to 1024, or there are fewer records")
            }
        }
    }
}

impl fmt::Display for EnterFault {
    ghost output = { λ fault. Some (enter_fault_text fault) };

    fn fmt<W: fmt::Write>(&self, f: &mut fmt::Formatter<W>) -> fmt::Result {
        match self {
            EnterFault::Roster(fault) => write!(f, "{fault}"),
            EnterFault::Source(fault) => write!(f, "{fault}"),
        }
    }
}
