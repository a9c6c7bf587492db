// The program keeps a roster and a bounded sample of it by a script on standard input, and prints what it did.
// The settings come first, then a line for each change or question; docs/SCRIPT.md has the words.
// The libraries below do the work and are proved; what is printed here is held to the file `stdout`.

#![tactic(auto)]

mod keeper;
mod line;
mod script;
mod setting;
mod word;

use crate::line::Line;
use crate::script::Script;
use crate::setting::{Kind, Settings};
use keys::{Name, Number};
use std::alloc::Global;

fn read_all(rt: &HostRuntime, heap: Global) -> anyhow::Result<Vec<Line>> {
    let mut lines = Vec::new(heap);
    for text in rt.lines(heap) {
        let text = text?;
        let words: Vec<&str> = text.as_str().split_whitespace().collect(heap)?;
        lines.push(line::parse(heap, words.as_slice())?)?;
    }
    Ok(lines)
}

// Takes the settings that come first, and answers how many lines they are.
fn set_all(rt: &impl Print, settings: &mut Settings, lines: &[Line]) -> anyhow::Result<usize> {
    for (before, line) in lines.iter().enumerate() {
        match line {
            Line::Blank => {}
            Line::Setting(setting) => settings.set(rt, before + 1, *setting)?,
            _ => return Ok(before),
        }
    }
    Ok(lines.len())
}

fn run(rt: &HostRuntime) -> anyhow::Result<()> {
    let heap = rt.alloc();
    let lines = read_all(rt, heap)?;
    let mut settings = Settings::usual();
    let begin = set_all(rt, &mut settings, lines.as_slice())?;
    let script = Script {
        lines: lines.as_slice(),
        begin,
    };
    settings.say(rt)?;
    match settings.kind {
        Kind::Numbers => script.keep::<Number>(rt, heap, &settings),
        Kind::Names => script.keep::<Name>(rt, heap, &settings),
    }
}

fn main(rt: HostRuntime) -> anyhow::Result<()> {
    run(&rt)
}
