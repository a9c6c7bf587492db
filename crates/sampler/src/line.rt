// One line of a script, read.
use crate::setting::{Kind, Setting};
use hex::FromHexError;
use std::alloc::Global;

// What a line asks for. Keys stay words until it is known of which kind they are.
#[derive(Drop)]
pub(crate) enum Line {
    // nothing stands on it, or a comment
    Blank,
    Unreadable,
    Setting(Setting),
    Source(Origin),
    Key(KeyCall, String),
    Slip(SlipCall),
    Question(Question),
}

// Where draws come from.
#[derive(Drop)]
pub(crate) enum Origin {
    Generator(u64),
    Tape(Vec<u8>),
}

// A call that names a key.
#[derive(Clone, Copy)]
pub(crate) enum KeyCall {
    // with the draw on the line
    EnterWith(u16),
    // with a draw of the source
    Enter,
    Admit,
    Leave,
    IsLive,
}

// A call that ends the open entry: with the slip that the program holds, or with one given by its numbers.
#[derive(Clone, Copy)]
pub(crate) enum SlipCall {
    Settle(u16),
    Withdraw,
    SettleBy(Numbers, u16),
    WithdrawBy(Numbers),
}

// The numbers of a slip.
#[derive(Clone, Copy)]
pub(crate) struct Numbers {
    pub tag: u16,
    pub class: u8,
    pub radix: u16,
}

#[derive(Clone, Copy)]
pub(crate) enum Question {
    Read,
    Count,
    OpenEntry,
    Radix(u8),
    Place(u8),
    // the records of the draws so far
    Tape,
}

fn read_u8(word: &str) -> Option<u8> {
    word.parse::<u8>().ok()
}

fn read_u16(word: &str) -> Option<u16> {
    word.parse::<u16>().ok()
}

// A setting's number: one above 65,535 cannot pass either, and counts as that.
fn read_capacity(word: &str) -> Option<u16> {
    let n = word.parse::<u32>().ok()?;
    Some(n.min(65535) as u16)
}

// Likewise with 255.
fn read_size(word: &str) -> Option<u8> {
    let n = word.parse::<u32>().ok()?;
    Some(n.min(255) as u8)
}

// The class set that names each of these classes, 0 to 7.
fn read_classes(words: &[&str]) -> Option<u8> {
    let mut set = 0u8;
    for word in words {
        let class = read_u8(word)?;
        if class > 7 {
            return None;
        }
        set |= 1 << class;
    }
    Some(set)
}

fn read_numbers(tag: &str, class: &str, radix: &str) -> Option<Numbers> {
    Some(Numbers {
        tag: read_u16(tag)?,
        class: read_u8(class)?,
        radix: read_u16(radix)?,
    })
}

fn read_setting(words: &[&str]) -> Option<Setting> {
    match words {
        ["capacity", n] => Some(Setting::Capacity(read_capacity(n)?)),
        ["bound", n] => Some(Setting::Bound(read_size(n)?)),
        ["classes", rest @ ..] => Some(Setting::Classes(read_classes(rest)?)),
        ["front", n] => Some(Setting::Front(read_size(n)?)),
        ["kind", "numbers"] => Some(Setting::Kind(Kind::Numbers)),
        ["kind", "names"] => Some(Setting::Kind(Kind::Names)),
        _ => None,
    }
}

fn read_key_call<'a>(words: &[&'a str]) -> Option<(KeyCall, &'a str)> {
    match words {
        ["enter", key, draw] => Some((KeyCall::EnterWith(read_u16(draw)?), *key)),
        ["enter", key] => Some((KeyCall::Enter, *key)),
        ["admit", key] => Some((KeyCall::Admit, *key)),
        ["leave", key] => Some((KeyCall::Leave, *key)),
        ["live", key] => Some((KeyCall::IsLive, *key)),
        _ => None,
    }
}

fn read_slip_call(words: &[&str]) -> Option<SlipCall> {
    match words {
        ["settle", draw] => Some(SlipCall::Settle(read_u16(draw)?)),
        ["settle", tag, class, radix, draw] => Some(SlipCall::SettleBy(
            read_numbers(tag, class, radix)?,
            read_u16(draw)?,
        )),
        ["withdraw"] => Some(SlipCall::Withdraw),
        ["withdraw", tag, class, radix] => Some(SlipCall::WithdrawBy(read_numbers(
            tag, class, radix,
        )?)),
        _ => None,
    }
}

fn read_question(words: &[&str]) -> Option<Question> {
    match words {
        ["read"] => Some(Question::Read),
        ["count"] => Some(Question::Count),
        ["open"] => Some(Question::OpenEntry),
        ["radix", class] => Some(Question::Radix(read_u8(class)?)),
        ["place", i] => Some(Question::Place(read_u8(i)?)),
        ["tape"] => Some(Question::Tape),
        _ => None,
    }
}

// The bytes that pairs of hexadecimal digits spell; `-` stands for no byte.
fn read_hex(heap: Global, text: &str) -> anyhow::Result<Option<Vec<u8>>> {
    if text == "-" {
        return Ok(Some(Vec::new(heap)));
    }
    match hex::decode(heap, text) {
        Err(error @ FromHexError::OutOfMemory) => Err(error.into()),
        decoded => Ok(decoded.ok()),
    }
}

fn read_origin(heap: Global, from: &str, what: &str) -> anyhow::Result<Option<Origin>> {
    Ok(match from {
        "generator" => what.parse().ok().map(Origin::Generator),
        "tape" => read_hex(heap, what)?.map(Origin::Tape),
        _ => None,
    })
}

// A line that names no key and no source.
fn read_plain(words: &[&str]) -> Line {
    if let Some(call) = read_slip_call(words) {
        return Line::Slip(call);
    }
    if let Some(question) = read_question(words) {
        return Line::Question(question);
    }
    read_setting(words).map_or(Line::Unreadable, Line::Setting)
}

// The line that these words make.
pub(crate) fn parse(heap: Global, words: &[&str]) -> anyhow::Result<Line> {
    match words {
        [] | ["#", ..] => Ok(Line::Blank),
        ["source", from, what] => match read_origin(heap, from, what)? {
            Some(origin) => Ok(Line::Source(origin)),
            None => Ok(Line::Unreadable),
        },
        words => match read_key_call(words) {
            Some((call, key)) => Ok(Line::Key(call, String::from_str(heap, key)?)),
            None => Ok(read_plain(words)),
        },
    }
}
