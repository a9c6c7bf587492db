// The list of changes, as it is read.
use keys::{KeyFault, Name};
use pile::ask_bound;
use roster::Request;
use std::alloc::Global;
use std::num::ParseIntError;
use thiserror::Error;

#[derive(Drop)]
pub(crate) struct List {
    pub bound: u8,
    pub changes: Vec<Request<Name>>,
}

#[derive(Clone, Copy)]
enum Line {
    // nothing stands on it, or a comment
    Blank,
    Bound(u8),
    Change(Request<Name>),
}

// Why a line is left out.
#[derive(Clone, Copy, Debug, Error)]
enum LineFault {
    #[error("cannot be read")]
    Unreadable,
    #[error("refused {0}")]
    Key(#[from] KeyFault),
}

impl From<ParseIntError> for LineFault {
    fn from(_: ParseIntError) -> LineFault {
        LineFault::Unreadable
    }
}

// A number above 255 cannot pass either.
fn read_bound(word: &str) -> Result<u8, LineFault> {
    let bound: u32 = word.parse()?;
    Ok(bound.min(255) as u8)
}

fn parse(words: &[&str]) -> Result<Line, LineFault> {
    Ok(match words {
        [] | ["#", ..] => Line::Blank,
        ["bound", m] => Line::Bound(read_bound(m)?),
        ["enter", key] => Line::Change(Request::Enter(Name::new(key.as_bytes())?)),
        ["leave", key] => Line::Change(Request::Leave(Name::new(key.as_bytes())?)),
        _ => return Err(LineFault::Unreadable),
    })
}

impl List {
    fn take(&mut self, rt: &impl Print, number: usize, line: Line) -> anyhow::Result<()> {
        match line {
            Line::Blank => {}
            Line::Bound(bound) => {
                self.bound = bound;
                if let Err(fault) = ask_bound(bound) {
                    println!(rt; "line {number}: refused {fault}")?;
                }
            }
            Line::Change(change) => self.changes.push(change)?,
        }
        Ok(())
    }

    // What cannot be taken is named by its line, and left out.
    pub(crate) fn read(rt: &HostRuntime, heap: Global) -> anyhow::Result<List> {
        let mut list = List {
            bound: 16,
            changes: Vec::new(heap),
        };
        for (before, text) in rt.lines(heap).enumerate() {
            let text = text?;
            let number = before.saturating_add(1);
            let words: Vec<&str> = text.as_str().split_whitespace().collect(heap)?;
            match parse(words.as_slice()) {
                Ok(line) => list.take(rt, number, line)?,
                Err(fault) => println!(rt; "line {number}: {fault}")?,
            }
        }
        Ok(list)
    }
}
