// The calls that change a roster.
ghost use Rattle.std.specs.Prelude.{◌≡◌, ◌<◌, IfSome, Some, None, MatchResult, slice_index_or, slice_set};
ghost use Rattle.std.specs.Option.{option_map};
ghost use Rattle.pile.specs.Rules.{radix_rule};
ghost use Rattle.pile.specs.Meaning.{Meaning};
ghost use Rattle.calls.specs.Calls.{admit, leave, is_slip, calls_for};
ghost use Rattle.calls.specs.Steps.{step, gives};
ghost use Rattle.roster.specs.Numbers.{roster_fault_number};
ghost use Rattle.roster.specs.Rosters.{book_of, open_told, pending_entry, slot_of, waiting};
ghost use Rattle.roster.specs.Admissions.{Admissible, Refused};
ghost use Rattle.roster.specs.Told.{settling, withdrawing, admit_told, settle_told, withdraw_told, leave_told, slip_back};

use super::{Opening, Roster};
use crate::faults::RosterFault;
use crate::record::{Pending, Record};
use crate::slip::{Slip, Unsettled};
use keys::Key;
use pile::{EntryReceipt, LeaveReceipt, Pile};

impl<K: Key> Record<K> {
    fn waiting(&self, opening: Opening) -> Option<Pending<K>>
        ensures { open_told K.view result ≡ waiting K.view self.now opening }
    {
        match self {
            Record::Waiting(key) => Some(Pending {
                key: *key,
                tag: opening.tag,
                radix: opening.radix,
            }),
            _ => None,
        }
    }

    pub(crate) fn live_key(&self) -> Option<K>
        ensures { option_map K.view result ≡ slot_of K.view self.now }
    {
        match self {
            Record::Live(key) => Some(*key),
            _ => None,
        }
    }
}

impl Slip {
    fn is_of<K: Key>(&self, entry: &Pending<K>) -> bool
        ensures { result ≡ is_slip (pending_entry K.view entry.now) self.now.tag self.now.class self.now.radix }
    {
        entry.tag == self.tag && entry.key.class() == self.class && entry.radix == self.radix
    }
}

// Whether the pile calls for this radix.
fn calls_for<P: Pile>(pile: &P, class: u8, radix: u16) -> bool
    ensures { result ≡ calls_for (radix_rule (P.meaning pile.now) class) radix }
{
    pile.radix(class).is_ok_and(|called| called == radix)
}

// Each call's contract says apart what it answers, what the roster is then and, where a pile changes, what that is. One equation of the
// step would say them at once, and a reader would take it apart again.
impl<'a, K: Key> Roster<'a, K> {
    // Nothing else writes the lent records.
    fn put(&mut self, i: u16, x: Record<K>)
        requires { i < self.old.capacity }
        ensures records { self.new.records.now ≡ slice_set self.old.records.now i x }
        ensures capacity { self.new.capacity ≡ self.old.capacity }
        ensures opening { self.new.opening ≡ self.old.opening }
    {
        self.records[usize::from(i)] = x;
    }

    // The open entry.
    pub fn open_entry(&self) -> Option<Pending<K>>
        ensures value { open_told K.view result ≡ (book_of K.view self.now).entry }
        ensures slot { IfSome result (λ p. (p.tag < self.now.capacity) × (slice_index_or (book_of K.view self.now).slots p.tag None ≡ None)) }
    {
        let opening = self.opening?;
        self.slots().get(usize::from(opening.tag))?.waiting(opening)
    }

    // The questions of admit before the pile's: the tag that the key would get, or why it gets none. The first two are leave's too, but a
    // refusal comes of another verdict there, so each call puts them.
    fn admissible(&self, key: &K) -> Result<u16, RosterFault>
        ensures { MatchResult result (λ tag. Admissible K.view self.now key.now tag) (λ fault. Refused K.view self.now key.now (roster_fault_number fault)) }
    {
        if !key.is_lawful() {
            return Err(RosterFault::Unlawful);
        }
        if self.open_entry().is_some() {
            return Err(RosterFault::EntryOpen);
        }
        if self.find(key).is_some() {
            return Err(RosterFault::AlreadyLive);
        }
        if self.live_count() >= self.capacity {
            return Err(RosterFault::NoRoom);
        }
        self.free(key).ok_or(RosterFault::NoRoom)
    }

    // Opens an entry for the key, and answers its slip.
    pub fn admit<P: Pile>(&mut self, key: K, pile: &P) -> Result<Slip, RosterFault>
        ensures answer { admit_told result ≡ (step (book_of K.view self.old) (P.meaning pile.now) (admit (K.view key)) (gives 0)).answer }
        ensures roster { book_of K.view self.new ≡ (step (book_of K.view self.old) (P.meaning pile.now) (admit (K.view key)) (gives 0)).book }
    {
        let tag = self.admissible(&key)?;
        let class = key.class();
        let radix = pile.radix(class)?;
        self.put(tag, Record::Waiting(key));
        self.opening = Some(Opening { tag, radix });
        Ok(Slip { tag, class, radix })
    }

    // Ends the open entry.
    pub fn withdraw(&mut self, slip: Slip) -> Result<(), RosterFault>
        ensures answer { (m : Meaning) → withdraw_told result ≡ (step (book_of K.view self.old) m (withdrawing slip) (gives 0)).answer }
        ensures roster { (m : Meaning) → book_of K.view self.new ≡ (step (book_of K.view self.old) m (withdrawing slip) (gives 0)).book }
    {
        let entry = self.open_entry();
        let mine = entry.is_some_and(|entry| slip.is_of(&entry));
        let Slip {
            tag,
            class: _,
            radix: _,
        } = slip;
        if !mine {
            return Err(RosterFault::OtherSlip);
        }
        self.put(tag, Record::Free);
        self.opening = None;
        Ok(())
    }

    // Makes the key of the open entry live, and enters it in the pile with the draw. A refusal hands the slip back; so each moves it into its
    // answer, and none can go by `?`.
    pub fn settle<P: Pile>(
        &mut self,
        slip: Slip,
        pile: &mut P,
        draw: u16,
    ) -> Result<EntryReceipt, Unsettled>
        ensures answer { settle_told result ≡ (step (book_of K.view self.old) (P.meaning pile.old) (settling slip) (gives draw)).answer }
        ensures back { slip_back result slip }
        ensures roster { book_of K.view self.new ≡ (step (book_of K.view self.old) (P.meaning pile.old) (settling slip) (gives draw)).book }
        ensures pile { P.meaning pile.new ≡ (step (book_of K.view self.old) (P.meaning pile.old) (settling slip) (gives draw)).pile }
    {
        let Some(pending) = self.open_entry() else {
            return Err(Unsettled {
                fault: RosterFault::OtherSlip,
                slip,
            });
        };
        if !slip.is_of(&pending) {
            return Err(Unsettled {
                fault: RosterFault::OtherSlip,
                slip,
            });
        }
        if !calls_for(pile, slip.class, slip.radix) {
            return Err(Unsettled {
                fault: RosterFault::OtherSlip,
                slip,
            });
        }
        if draw >= slip.radix {
            return Err(Unsettled {
                fault: RosterFault::DrawTooLarge,
                slip,
            });
        }
        match pile.entry(slip.tag, slip.class, draw) {
            Err(fault) => Err(Unsettled {
                fault: RosterFault::Pile(fault),
                slip,
            }),
            Ok(receipt) => {
                let Slip {
                    tag,
                    class: _,
                    radix: _,
                } = slip;
                self.put(tag, Record::Live(pending.key));
                self.opening = None;
                Ok(receipt)
            }
        }
    }

    // Ends a key's life, and leaves the pile.
    pub fn leave<P: Pile>(&mut self, key: K, pile: &mut P) -> Result<LeaveReceipt, RosterFault>
        ensures answer { leave_told result ≡ (step (book_of K.view self.old) (P.meaning pile.old) (leave (K.view key)) (gives 0)).answer }
        ensures roster { book_of K.view self.new ≡ (step (book_of K.view self.old) (P.meaning pile.old) (leave (K.view key)) (gives 0)).book }
        ensures pile { P.meaning pile.new ≡ (step (book_of K.view self.old) (P.meaning pile.old) (leave (K.view key)) (gives 0)).pile }
    {
        if !key.is_lawful() {
            return Err(RosterFault::Unlawful);
        }
        if self.open_entry().is_some() {
            return Err(RosterFault::EntryOpen);
        }
        let Some(tag) = self.find(&key) else {
            return Err(RosterFault::NotLive);
        };
        let Some(live) = self.slots()[usize::from(tag)].live_key() else {
            return Err(RosterFault::NotLive);
        };
        let receipt = pile.leave(tag, live.class())?;
        self.put(tag, Record::Free);
        self.opening = None;
        Ok(receipt)
    }
}
