// What a host asks for, and what it is told, as values.
use crate::faults::RosterFault;
use crate::record::Pending;
use pile::{EntryReceipt, LeaveReceipt, PlaceState, Tag};
use sources::SourceFault;

// A call with its arguments. A slip is given by its numbers.
#[derive(Clone, Copy)]
pub enum Request<K> {
    Admit(K),
    Settle {
        tag: u16,
        class: u8,
        radix: u16,
        draw: u16,
    },
    Withdraw {
        tag: u16,
        class: u8,
        radix: u16,
    },
    Enter(K),
    Leave(K),
    // the questions
    Place(u8),
    Counts,
    Radix(u8),
    IsLive(K),
    LiveCount,
    OpenEntry,
    KeyAt(u8),
}

// What a call answered.
#[derive(Clone, Copy)]
pub enum Answer<K> {
    Refused(RosterFault),
    SourceRefused(SourceFault),
    Slip { tag: u16, class: u8, radix: u16 },
    Entered(EntryReceipt),
    Withdrawn,
    Left(LeaveReceipt),
    Place(PlaceState<Tag>),
    Counts(u16, u16, u8),
    Radix(u16),
    IsLive(bool),
    LiveCount(u16),
    OpenEntry(Option<Pending<K>>),
    KeyAt(PlaceState<K>),
}
