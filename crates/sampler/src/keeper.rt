// Keeps the sample beside a roster, and says what was done.
use crate::line::{KeyCall, Line};
use crate::setting::{Sample, Settings};
use crate::word::Word;
use pile::EntryReceipt;
use roster::{Roster, Slip};
use sources::Source;
use std::alloc::Global;
use std::fmt;

mod answers;
mod entries;
mod slips;

// A slip cannot be let go, so whoever opens this has to end it by `close`.
pub(crate) struct Keeper {
    heap: Global,
    sample: Sample,
    // the slip of the open entry
    slip: Option<Slip>,
    // what the entries so far answered, for their tape
    receipts: Vec<EntryReceipt>,
}

impl Keeper {
    pub(crate) fn open(heap: Global, settings: &Settings) -> Keeper {
        Keeper {
            heap,
            sample: settings.open_sample(),
            slip: None,
            receipts: Vec::new(heap),
        }
    }

    // Withdraws the entry that is still open.
    pub(crate) fn close<'a, K: Word>(
        self,
        rt: &impl Print,
        roster: &mut Roster<'a, K>,
    ) -> anyhow::Result<()> {
        let Keeper {
            heap: _,
            sample: _,
            slip,
            receipts: _,
        } = self;
        if let Some(slip) = slip {
            let _ = roster.withdraw(slip);
            println!(rt; "the end: the open entry is withdrawn")?;
        }
        Ok(())
    }

    // Does what line `number` of the script asks.
    pub(crate) fn follow<'a, K: Word + fmt::Display, S: Source>(
        &mut self,
        rt: &impl Print,
        roster: &mut Roster<'a, K>,
        source: &mut S,
        number: usize,
        line: &Line,
    ) -> anyhow::Result<()> {
        match line {
            Line::Blank => Ok(()),
            Line::Unreadable => say(rt, number, "cannot be read"),
            Line::Setting(_) => say(rt, number, "a setting comes before all else"),
            Line::Source(_) => Ok(()),
            Line::Key(call, word) => match K::from_word(word.as_str()) {
                Ok(key) => self.call(rt, roster, source, *call, key),
                Err(fault) => {
                    println!(rt; "line {number}: {fault}")?;
                    Ok(())
                }
            },
            Line::Slip(call) => self.end_entry(rt, roster, number, *call),
            Line::Question(question) => self.answer(rt, roster, *question),
        }
    }

    fn call<'a, K: Word + fmt::Display, S: Source>(
        &mut self,
        rt: &impl Print,
        roster: &mut Roster<'a, K>,
        source: &mut S,
        call: KeyCall,
        key: K,
    ) -> anyhow::Result<()> {
        match call {
            KeyCall::EnterWith(draw) => self.enter_with(rt, roster, key, draw),
            KeyCall::Enter => self.enter(rt, roster, source, key),
            KeyCall::Admit => self.admit(rt, roster, key),
            KeyCall::Leave => self.leave(rt, roster, key),
            KeyCall::IsLive => {
                let answer = if roster.is_live(&key) { "yes" } else { "no" };
                println!(rt; "live {key}: {answer}")?;
                Ok(())
            }
        }
    }
}

fn say(rt: &impl Print, number: usize, what: &str) -> anyhow::Result<()> {
    println!(rt; "line {number}: {what}")?;
    Ok(())
}
