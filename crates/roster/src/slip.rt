// The token of an open entry.
ghost use Rattle.std.specs.Prelude.{◌≡◌};

// Made by an admit alone, and spent by a settle or a withdraw: it can be neither copied nor let go. A struct of its numbers, shared
// with the open entry, would only put one more name before each of them in every clause.
pub struct Slip {
    pub(crate) tag: u16,
    pub(crate) class: u8,
    pub(crate) radix: u16,
}

impl Slip {
    pub fn tag(&self) -> u16
        ensures { result ≡ self.now.tag }
    {
        self.tag
    }

    pub fn class(&self) -> u8
        ensures { result ≡ self.now.class }
    {
        self.class
    }

    pub fn radix(&self) -> u16
        ensures { result ≡ self.now.radix }
    {
        self.radix
    }
}

// A settle that was refused hands its slip back.
pub struct Unsettled {
    pub fault: crate::faults::RosterFault,
    pub slip: Slip,
}
