// The program takes a short list of changes on standard input, carries it out under every tape of draws, and counts how often
// each set of keys is the sample. The table stands beside what the law of evenness promises; docs/SCRIPT.md has the words.

#![tactic(auto)]

mod choose;
mod draws;
mod list;
mod outcome;
mod table;

use crate::draws::Draws;
use crate::list::List;
use crate::outcome::{Counts, Outcome};
use crate::table::{Table, set_text};
use keys::Name;
use pile::size_or_one;
use roster::{Answer, Request};
use sources::{Generator, Tape};
use std::alloc::Global;

// More tapes are not run.
const MOST_TAPES: u64 = 50000;

// Up to so many, each tape is printed with its sample.
const FEW_TAPES: u64 = 24;

fn say_answer(
    rt: &impl Print,
    change: &Request<Name>,
    answer: &Answer<Name>,
) -> anyhow::Result<()> {
    match change {
        Request::Enter(name) => print!(rt; "enter {name}: ")?,
        Request::Leave(name) => print!(rt; "leave {name}: ")?,
        // no list has another
        _ => {}
    }
    match answer {
        Answer::Entered(receipt) => {
            let radix = receipt.radix;
            println!(rt; "radix {radix}")?;
        }
        Answer::Left(_) => println!(rt; "done")?,
        Answer::Refused(fault) => println!(rt; "refused {fault}")?,
        // it does not come to this
        _ => println!(rt; "")?,
    }
    Ok(())
}

// The radices are those of a first run; they are the same under every tape, or a tape would refuse.
fn say_list(rt: &impl Print, list: &List, outcome: &Outcome) -> anyhow::Result<()> {
    let bound = size_or_one(list.bound);
    println!(rt; "bound {bound}")?;
    for (change, answer) in list.changes.iter().zip(outcome.answers.iter()) {
        say_answer(rt, change, answer)?;
    }
    Ok(())
}

fn say_rule(rt: &impl Print, tapes: u64, counts: Counts) -> anyhow::Result<()> {
    let Counts {
        live,
        unpaired,
        places,
    } = counts;
    println!(rt; "{tapes} tapes; N {live}, d {unpaired}, L {places}")?;
    println!(rt; "share of a set of a keys: {tapes} * choose(d, L - a) / choose(N + d, L)")?;
    Ok(())
}

fn say_tape(rt: &impl Print, draws: &Draws, sample: &str) -> anyhow::Result<()> {
    print!(rt; "draws")?;
    for entry in draws.entries.iter() {
        let draw = entry.draw;
        print!(rt; " {draw}")?;
    }
    println!(rt; ": {sample}")?;
    Ok(())
}

// Runs the list under the tape whose turn it is, and notes the sample. It is also said if the calls do not use the tape to its
// last byte, or leave another N, d or L.
fn note_tape(
    rt: &impl Print,
    heap: Global,
    list: &List,
    draws: &Draws,
    table: &mut Table,
) -> anyhow::Result<()> {
    let bytes = draws.records(heap)?;
    let mut tape = Tape::new(bytes.as_slice());
    let outcome = Outcome::of(heap, list, &mut tape)?;
    let text = set_text(heap, outcome.sample.as_slice())?;
    if draws.count() <= FEW_TAPES {
        say_tape(rt, draws, text.as_str())?;
    }
    if !tape.is_used_up() {
        let byte = tape.first_unused();
        println!(rt; "THE CALLS LEFT THE TAPE at byte {byte}")?;
    }
    if !table.is_for(outcome.counts) {
        println!(rt; "ANOTHER N, d OR L")?;
    }
    let size = outcome.sample.len() as u64;
    table.note(size, text)?;
    Ok(())
}

fn run(rt: &HostRuntime) -> anyhow::Result<()> {
    let heap = rt.alloc();
    let list = List::read(rt, heap)?;
    let first = Outcome::of(heap, &list, &mut Generator::new(1))?;
    say_list(rt, &list, &first)?;
    let receipts = first.receipts(heap)?;
    let mut draws = Draws::first(heap, receipts.as_slice())?;
    let tapes = draws.count();
    if tapes > MOST_TAPES {
        println!(rt; "{tapes} tapes are too many: at most {MOST_TAPES} are run")?;
        return Ok(());
    }
    say_rule(rt, tapes, first.counts)?;
    let mut table = Table::new(heap, tapes, first.counts);
    for _ in 0..tapes {
        note_tape(rt, heap, &list, &draws, &mut table)?;
        draws.advance();
    }
    table.print(rt)
}

fn main(rt: HostRuntime) -> anyhow::Result<()> {
    run(&rt)
}
