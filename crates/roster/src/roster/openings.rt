// Opening a roster over lent records, and the question put beforehand.
ghost use Rattle.std.specs.Prelude.{◌≡◌, ◌≤◌, true, length};
ghost use Rattle.pile.specs.Answers.{told_by};
ghost use Rattle.calls.specs.Book.{new_book, opened_book};
ghost use Rattle.roster.specs.Numbers.{capacity_fault_number};
ghost use Rattle.roster.specs.Opening.{capacity_rule, taken_capacity, cleared};
ghost use Rattle.roster.specs.Rosters.{book_of};

use super::Roster;
use crate::faults::CapacityFault;
use crate::record::Record;
use keys::Key;

// Is the capacity 1 to 1,024, and are there that many records?
pub fn ask_capacity(capacity: u16, records: usize) -> Result<u16, CapacityFault>
    ensures { told_by capacity_fault_number result ≡ capacity_rule capacity records }
{
    let passes = (1..=1024).contains(&capacity) && usize::from(capacity) <= records;
    passes.then_some(capacity).ok_or(CapacityFault::Capacity)
}

// The capacity that an opening takes: 0 where it did not pass.
fn capacity_or_none(capacity: u16, records: usize) -> u16
    ensures { result ≡ taken_capacity capacity records }
{
    ask_capacity(capacity, records).unwrap_or(0)
}

// None of an earlier use's keys stays in the first records.
fn clear<K: Copy>(records: &mut [Record<K>], count: usize)
    requires { count ≤ length records.old }
    ensures { records.new ≡ cleared records.old count }
{
    records[..count].fill(Record::Free);
}

impl<'a, K: Key> Roster<'a, K> {
    // A new roster over the first records; a capacity that does not pass counts as 0. The other records stay.
    pub fn new(records: &'a mut [Record<K>], capacity: u16) -> Roster<'a, K>
        ensures meaning { book_of K.view result ≡ opened_book (taken_capacity capacity (length records.old)) }
        ensures new { new_book (book_of K.view result) ≡ true }
        ensures records { result.records.now ≡ cleared records.old (taken_capacity capacity (length records.old)) }
    {
        let capacity = capacity_or_none(capacity, records.len());
        clear(records, usize::from(capacity));
        Roster {
            records,
            capacity,
            opening: None,
        }
    }
}
