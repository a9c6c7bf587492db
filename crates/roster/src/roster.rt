// A roster over lent records.
ghost use Rattle.std.specs.Prelude.{◌≤◌, length};

use crate::record::Record;

pub mod changes;
pub mod entering;
pub mod openings;
pub mod questions;
pub mod requests;
pub mod runs;
pub mod searches;

// The numbers of the open entry, as in its slip; its key waits in the record of its tag.
#[derive(Clone, Copy)]
pub struct Opening {
    pub tag: u16,
    pub radix: u16,
}

// Who is live, and the entry that is open. The first `capacity` records are the slots. No slice of just these: `new` promises what the
// records past them hold, and over such a slice that could only be said of the day when the loan ends (tried). No model of book and
// records together: clauses would say `self.old.book` for `book_of K.view self.old`, which is no plainer.
#[derive(Drop)]
pub struct Roster<'a, K> {
    records: &'a mut [Record<K>],
    capacity: u16,
    opening: Option<Opening>,
    ghost within: { capacity ≤ length records.now },
    ghost few: { capacity ≤ 1024 },
}
