// Questions, which change nothing.
use super::Keeper;
use crate::line::Question;
use crate::word::Word;
use pile::{EntryReceipt, Pile, PlaceState};
use roster::{Pending, Roster};
use sources::write_record;
use std::fmt;

impl Keeper {
    pub(super) fn answer<'a, K: Word + fmt::Display>(
        &self,
        rt: &impl Print,
        roster: &Roster<'a, K>,
        question: Question,
    ) -> anyhow::Result<()> {
        match question {
            Question::Read => self.read(rt, roster)?,
            Question::Count => {
                let count = roster.live_count();
                println!(rt; "count: {count} live")?;
            }
            Question::OpenEntry => say_open_entry(rt, roster)?,
            Question::Radix(class) => match self.sample.radix(class) {
                Ok(radix) => println!(rt; "radix of class {class}: {radix}")?,
                Err(fault) => println!(rt; "radix of class {class}: refused {fault}")?,
            },
            Question::Place(i) => match self.sample.place(i) {
                PlaceState::Held(tag) => println!(rt; "place {i}: tag {tag}")?,
                PlaceState::Hole => println!(rt; "place {i}: hole")?,
                PlaceState::NoSuchPlace => println!(rt; "place {i}: no such place")?,
            },
            Question::Tape => self.tape(rt)?,
        }
        Ok(())
    }

    fn read<'a, K: Word + fmt::Display>(
        &self,
        rt: &impl Print,
        roster: &Roster<'a, K>,
    ) -> anyhow::Result<()> {
        let (live, unpaired, standing) = self.sample.counts();
        println!(rt; "read: N {live}, d {unpaired}, {standing} standing")?;
        for i in 0..self.sample.bound() {
            match roster.key_at(&self.sample, i) {
                PlaceState::Held(key) => println!(rt; "  {i}: {key}")?,
                PlaceState::Hole => println!(rt; "  {i}: hole")?,
                PlaceState::NoSuchPlace => {}
            }
        }
        Ok(())
    }

    // The tape of the entries so far, a record to a line.
    fn tape(&self, rt: &impl Print) -> anyhow::Result<()> {
        println!(rt; "tape:")?;
        for receipt in self.receipts.iter() {
            print_record(rt, *receipt)?;
        }
        Ok(())
    }
}

fn say_open_entry<'a, K: Word + fmt::Display>(
    rt: &impl Print,
    roster: &Roster<'a, K>,
) -> anyhow::Result<()> {
    match roster.open_entry() {
        Some(Pending { key, tag, radix }) => {
            let class = key.class();
            println!(rt; "open: {key}, tag {tag}, class {class}, radix {radix}")?;
        }
        None => println!(rt; "open: none")?,
    }
    Ok(())
}

fn print_record(rt: &impl Print, receipt: EntryReceipt) -> anyhow::Result<()> {
    let mut bytes = [0u8; 6];
    // six bytes are free, so this is never refused
    let _ = write_record(receipt, &mut bytes, 0);
    print!(rt; "  ")?;
    for byte in bytes {
        print!(rt; "{byte:02x}")?;
    }
    println!(rt; "")?;
    Ok(())
}
