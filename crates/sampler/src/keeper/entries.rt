// Keys enter and leave.
use super::Keeper;
use crate::word::Word;
use pile::{EntryReceipt, Pile};
use roster::{Roster, Unsettled};
use sources::Source;
use std::fmt;

impl Keeper {
    // Admits, and settles with the draw. A slip that is handed back is withdrawn.
    pub(super) fn enter_with<'a, K: Word + fmt::Display>(
        &mut self,
        rt: &impl Print,
        roster: &mut Roster<'a, K>,
        key: K,
        draw: u16,
    ) -> anyhow::Result<()> {
        let class = key.class();
        print!(rt; "enter {key} of class {class}: ")?;
        match roster.admit(key, &self.sample) {
            Err(fault) => println!(rt; "refused {fault}")?,
            Ok(slip) => match roster.settle(slip, &mut self.sample, draw) {
                Ok(receipt) => self.note(rt, receipt)?,
                Err(Unsettled { fault, slip }) => {
                    let _ = roster.withdraw(slip);
                    println!(rt; "refused {fault}; withdrawn")?;
                }
            },
        }
        Ok(())
    }

    // Admits, draws and settles.
    pub(super) fn enter<'a, K: Word + fmt::Display, S: Source>(
        &mut self,
        rt: &impl Print,
        roster: &mut Roster<'a, K>,
        source: &mut S,
        key: K,
    ) -> anyhow::Result<()> {
        let class = key.class();
        print!(rt; "enter {key} of class {class}: ")?;
        match roster.enter(key, &mut self.sample, source) {
            Err(fault) => println!(rt; "refused {fault}")?,
            Ok(receipt) => self.note(rt, receipt)?,
        }
        Ok(())
    }

    // Says what an entry answered, and keeps it for the tape.
    pub(super) fn note(&mut self, rt: &impl Print, receipt: EntryReceipt) -> anyhow::Result<()> {
        let radix = receipt.radix;
        let draw = receipt.draw;
        match receipt.place {
            Some(place) => println!(rt; "radix {radix}, draw {draw}, place {place}")?,
            None => println!(rt; "radix {radix}, draw {draw}, no place")?,
        }
        self.receipts.push(receipt)?;
        Ok(())
    }

    pub(super) fn leave<'a, K: Word + fmt::Display>(
        &mut self,
        rt: &impl Print,
        roster: &mut Roster<'a, K>,
        key: K,
    ) -> anyhow::Result<()> {
        let class = key.class();
        print!(rt; "leave {key} of class {class}: ")?;
        match roster.leave(key, &mut self.sample) {
            Err(fault) => println!(rt; "refused {fault}")?,
            Ok(receipt) => match receipt.place {
                Some(place) => println!(rt; "place {place} is a hole now")?,
                None => println!(rt; "no place")?,
            },
        }
        Ok(())
    }
}
