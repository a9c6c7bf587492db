// The record SL, which opens a log.
ghost use Rattle.std.specs.Prelude.{◌≡◌, ◌≤◌, length, ◌==◌};
ghost use Rattle.logs.specs.Told.{AsksRecord, AsksSetting, kind_answer, opened_told, setting_told};
ghost use Rattle.replays.specs.Settings.{kind_named, opening, setting_in};

use crate::faults::{LogFault, ReplayFault};
use pile::{ask_bound, ask_classes, ask_front};
use roster::ask_capacity;

// The kind of all keys of a log.
#[derive(Clone, Copy)]
pub enum Kind {
    Numbers,
    Names,
}

// What roster and pile of a replay are opened with.
#[derive(Clone, Copy)]
pub struct Setting {
    pub capacity: u16,
    pub bound: u8,
    // bit c for class c
    pub classes: u8,
    // the bound, where the log says 0
    pub front: u8,
}

// Is the mark whole, is it SL, and are its fields whole?
fn ask_record(log: &[u8]) -> Result<(), LogFault>
    ensures { AsksRecord result log.now }
{
    if log.len() < 2 {
        return Err(LogFault::Cut);
    }
    if !log.starts_with(b"SL") {
        return Err(LogFault::UnknownMark);
    }
    if log.len() < 8 {
        return Err(LogFault::Cut);
    }
    Ok(())
}

// The kind that the letter names.
fn kind_named(letter: u8) -> Result<Kind, LogFault>
    ensures { kind_answer result ≡ kind_named (letter == 78) (letter == 66) }
{
    match letter {
        b'N' => Ok(Kind::Numbers),
        b'B' => Ok(Kind::Names),
        _ => Err(LogFault::UnknownMark),
    }
}

// The fields after the kind.
fn setting_in(log: &[u8]) -> Setting
    requires { 8 ≤ length log.now }
    ensures { setting_told result ≡ setting_in log.now }
{
    let bound = log[5];
    let front = log[7];
    Setting {
        capacity: u16::from_be_bytes([log[3], log[4]]),
        bound,
        classes: log[6],
        front: if front == 0 { bound } else { front },
    }
}

// The questions of opening, with 1,024 records for the roster.
fn ask_setting(setting: Setting) -> Result<Setting, ReplayFault>
    ensures { AsksSetting result (setting_told setting) }
{
    ask_capacity(setting.capacity, 1024)?;
    ask_bound(setting.bound)?;
    ask_classes(setting.classes)?;
    ask_front(setting.front)?;
    Ok(setting)
}

// The kind and the settings that the log opens with.
pub fn read_setting(log: &[u8]) -> Result<(Kind, Setting), ReplayFault>
    ensures { opened_told result ≡ opening log.now }
{
    ask_record(log)?;
    let kind = kind_named(log[2])?;
    let setting = ask_setting(setting_in(log))?;
    Ok((kind, setting))
}
