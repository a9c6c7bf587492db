// The questions that only look at the records.
ghost use Rattle.std.specs.Prelude.{◌≡◌, ◌<◌, ◌≤◌, Bool, ◌++◌, length, take, drop, position, IfSome, None, Option, slice_index_or};
ghost use Rattle.calls.specs.Book.{KeyView, seek_all, live_count, tag_of, free_tag, is_free, holds_form};
ghost use Rattle.roster.specs.Rosters.{book_of, slot_of};

use super::Roster;
use crate::record::Record;
use keys::Key;

impl<K: Key> Record<K> {
    // Whether this is the record of a live key, and of the one with the same byte form.
    fn holds(&self, key: &K) -> bool
        ensures { result ≡ holds_form (K.view key.now).form (slot_of K.view self.now) }
    {
        matches!(self, Record::Live(live) if live == key)
    }

    fn is_free(&self) -> bool
        ensures { result ≡ is_free (slot_of K.view self.now) }
    {
        !matches!(self, Record::Live(_))
    }
}

// How many items come before the first that passes, from `start` on and then from the first item.
fn turns<T, F: Fn(&T) -> bool>(items: &[T], start: usize, passes: F) -> Option<usize>
    requires callable { (state : F) (x : _) → F.pre state x }
    requires from { start ≤ length items.now }
    ensures first { (test : T → Bool) → ((x : _) (b : Bool) → F.post passes x b → b ≡ test x.now) → result ≡ position test (drop start items.now ++ take start items.now) }
    ensures within { IfSome result (λ i. i < length items.now) }
{
    let (before, after) = items.split_at(start);
    // two searches, and no chain, which asks at each item in which of the two parts it stands
    if let Some(i) = after.iter().position(|item| passes(item)) {
        return Some(i);
    }
    let i = before.iter().position(|item| passes(item))?;
    Some(after.len() + i)
}

impl<'a, K: Key> Roster<'a, K> {
    // The records that are slots.
    pub(crate) fn slots(&self) -> &[Record<K>]
        ensures records { result.now ≡ take self.now.capacity self.now.records.now }
        ensures len { length result.now ≡ self.now.capacity }
    {
        &self.records[..usize::from(self.capacity)]
    }

    // The first slot that passes, in the order in which a search for the key goes over them.
    fn search<F: Fn(&Record<K>) -> bool>(&self, key: &K, passes: F) -> Option<u16>
        requires callable { (state : F) (x : _) → F.pre state x }
        ensures first { (test : Option KeyView → Bool) → ((x : _) (b : Bool) → F.post passes x b → b ≡ test (slot_of K.view x.now)) → result ≡ seek_all test (book_of K.view self.now).slots (K.view key.now).index }
        ensures within { IfSome result (λ tag. tag < self.now.capacity) }
    {
        if self.capacity == 0 {
            return None;
        }
        let start = key.index() % self.capacity;
        let i = turns(self.slots(), usize::from(start), passes)? as u16;
        let to_the_end = self.capacity - start;
        Some(if i < to_the_end {
            start + i
        } else {
            i - to_the_end
        })
    }

    // The tag of a live key. That it is within the slots is said of each search, since callers use the tag as an index; a type of tags would
    // be one more name for hosts, and would still have to be tied to this roster's capacity.
    pub fn find(&self, key: &K) -> Option<u16>
        ensures value { result ≡ tag_of (book_of K.view self.now).slots (K.view key.now) }
        ensures within { IfSome result (λ tag. tag < self.now.capacity) }
    {
        self.search(key, |record| record.holds(key))
    }

    // The tag that a key would get.
    pub(crate) fn free(&self, key: &K) -> Option<u16>
        ensures value { result ≡ free_tag (book_of K.view self.now).slots (K.view key.now) }
        ensures within { IfSome result (λ tag. tag < self.now.capacity) }
        ensures free { IfSome result (λ tag. slice_index_or (book_of K.view self.now).slots tag None ≡ None) }
    {
        self.search(key, |record| record.is_free())
    }

    // How many keys are live.
    pub fn live_count(&self) -> u16
        ensures { result ≡ live_count (book_of K.view self.now).slots }
    {
        // a fold, since `filter` and `count` take more than twice the time
        self.slots().iter().fold(0usize, |count, record| {
            if record.is_free() {
                count
            } else {
                count.wrapping_add(1)
            }
        }) as u16
    }
}
