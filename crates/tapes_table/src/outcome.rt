// What the list of changes comes to under one source of draws.
use crate::list::List;
use bottoms::Paired;
use keys::Name;
use pile::{EntryReceipt, Pile, PlaceState};
use roster::{Answer, Ran, Record, Roster, run};
use sources::Source;
use std::alloc::{AllocError, Global};

// N, d and L: how many are live, how many leaves wait to be made up for, and how many places there have to be, which is the lesser of
// bound and N + d.
#[derive(Clone, Copy, PartialEq)]
pub(crate) struct Counts {
    pub live: u64,
    pub unpaired: u64,
    pub places: u64,
}

#[derive(Drop)]
pub(crate) struct Outcome {
    pub answers: Vec<Answer<Name>>,
    pub counts: Counts,
    // the keys that stand, in order
    pub sample: Vec<String>,
}

// As many records as changes can fill.
fn free_records<K: Copy>(heap: Global, count: usize) -> Result<Vec<Record<K>>, AllocError> {
    Ok(vec![in heap; Record::Free; count]?)
}

fn no_answers<K: Copy>(heap: Global, count: usize) -> Result<Vec<Answer<K>>, AllocError> {
    Ok(vec![in heap; Answer::Withdrawn; count]?)
}

fn count(pile: &Paired) -> Counts {
    let (live, unpaired, _) = pile.counts();
    let live = u64::from(live);
    let unpaired = u64::from(unpaired);
    Counts {
        live,
        unpaired,
        places: (live + unpaired).min(u64::from(pile.bound())),
    }
}

fn standing<'a>(
    heap: Global,
    roster: &Roster<'a, Name>,
    pile: &Paired,
) -> Result<Vec<String>, AllocError> {
    let mut sample = Vec::new(heap);
    for i in 0..pile.bound() {
        if let PlaceState::Held(name) = roster.key_at(pile, i) {
            sample.push(String::from_str(heap, name.as_str())?)?;
        }
    }
    sample.sort()?;
    Ok(sample)
}

impl Outcome {
    // Carries out the changes over a new roster and a new pile.
    pub(crate) fn of<S: Source>(
        heap: Global,
        list: &List,
        source: &mut S,
    ) -> Result<Outcome, AllocError> {
        let size = list.changes.len().clamp(1, 1024);
        let mut records = free_records(heap, size)?;
        let mut answers = no_answers(heap, list.changes.len())?;
        let mut roster = Roster::new(records.as_mut_slice(), size as u16);
        let mut pile = Paired::new(list.bound);
        let Ran { count: _, slip } = run(
            &mut roster,
            &mut pile,
            source,
            list.changes.as_slice(),
            answers.as_mut_slice(),
        );
        // nothing was admitted, so none is left
        if let Some(slip) = slip {
            let _ = roster.withdraw(slip);
        }
        Ok(Outcome {
            counts: count(&pile),
            sample: standing(heap, &roster, &pile)?,
            answers,
        })
    }

    // What the entries answered.
    pub(crate) fn receipts(&self, heap: Global) -> Result<Vec<EntryReceipt>, AllocError> {
        let mut receipts = Vec::new(heap);
        for answer in self.answers.iter() {
            if let Answer::Entered(receipt) = answer {
                receipts.push(*receipt)?;
            }
        }
        Ok(receipts)
    }
}
