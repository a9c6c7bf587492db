// The lines of a script in order, each with the source that was set last.
use crate::keeper::Keeper;
use crate::line::{Line, Origin};
use crate::setting::{RECORDS, Settings};
use crate::word::Word;
use roster::{Record, Roster};
use sources::{Generator, Source, Tape, ask_seed};
use std::alloc::{AllocError, Global};
use std::fmt;

#[derive(Drop)]
pub(crate) struct Script<'a> {
    pub lines: &'a [Line],
    // how many lines the settings took
    pub begin: usize,
}

impl<'a> Script<'a> {
    pub(crate) fn keep<K: Word + fmt::Display>(
        &self,
        rt: &impl Print,
        heap: Global,
        settings: &Settings,
    ) -> anyhow::Result<()> {
        let mut records = free_records::<K>(heap)?;
        let mut roster = Roster::new(records.as_mut_slice(), settings.capacity);
        let mut keeper = Keeper::open(heap, settings);
        let done = self.follow_all(rt, &mut roster, &mut keeper);
        let closed = keeper.close(rt, &mut roster);
        done?;
        closed
    }

    fn follow_all<'r, K: Word + fmt::Display>(
        &self,
        rt: &impl Print,
        roster: &mut Roster<'r, K>,
        keeper: &mut Keeper,
    ) -> anyhow::Result<()> {
        self.follow(rt, roster, keeper, &mut Generator::new(1), self.begin)?;
        for (before, line) in self.lines.iter().enumerate() {
            let number = before + 1;
            match line {
                Line::Source(Origin::Generator(seed)) => {
                    if let Err(fault) = ask_seed(*seed) {
                        println!(rt; "line {number}: refused {fault}")?;
                    }
                    self.follow(rt, roster, keeper, &mut Generator::new(*seed), number)?;
                }
                Line::Source(Origin::Tape(bytes)) => {
                    self.follow(rt, roster, keeper, &mut Tape::new(bytes.as_slice()), number)?;
                }
                _ => {}
            }
        }
        Ok(())
    }

    // Follows the lines from an index on, up to one that sets another source.
    fn follow<'r, K: Word + fmt::Display, S: Source>(
        &self,
        rt: &impl Print,
        roster: &mut Roster<'r, K>,
        keeper: &mut Keeper,
        source: &mut S,
        begin: usize,
    ) -> anyhow::Result<()> {
        for (before, line) in self.lines.iter().enumerate().skip(begin) {
            if let Line::Source(_) = line {
                return Ok(());
            }
            keeper.follow(rt, roster, source, before + 1, line)?;
        }
        Ok(())
    }
}

// What the program lends its roster.
fn free_records<K: Word>(heap: Global) -> Result<Vec<Record<K>>, AllocError> {
    Ok(vec![in heap; Record::Free; RECORDS]?)
}
