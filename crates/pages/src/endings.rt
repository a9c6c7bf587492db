// The lines that end a page.
ghost use Rattle.std.specs.Prelude.{◌≡◌, ◌+◌, ◌≤◌, length};
ghost use Rattle.replays.specs.Lines.{end_line, refused_line};
ghost use Rattle.pages.specs.Told.{refusal_told, tape_end};
ghost use Rattle.pages.specs.Writing.{next_after, page_with, Wrote};

use crate::lines::{has_room, put_byte, put_number, put_text};
use crate::refusal::Refusal;

// END and the number of draws. Where fewer than 10 bytes are free, nothing is written.
pub fn write_end(draws: u16, page: &mut [u8], at: usize) -> Option<usize>
    ensures next { result ≡ next_after 10 (end_line draws) page.old at }
    ensures page { page.new ≡ page_with 10 (end_line draws) page.old at }
{
    if !has_room(10, page, at) {
        return None;
    }
    let number_at = put_text(b"END ", page, at);
    Some(put_number(draws, b'\n', page, number_at))
}

// The end of a refusal's line: the byte of the tape, where there is one.
fn put_tape_byte(tape_byte: Option<u16>, page: &mut [u8], at: usize) -> usize
    requires { at + 7 ≤ length page.old }
    ensures { Wrote (tape_end tape_byte) page.old at page.new result }
{
    match tape_byte {
        Some(byte) => {
            let number_at = put_text(b" ", page, at);
            put_number(byte, b'\n', page, number_at)
        }
        None => put_text(b"\n", page, at),
    }
}

// REFUSED, the number, the byte and the layer, and for a source the byte of the tape. Where fewer than 32 bytes are free,
// nothing is written.
pub fn write_refusal(refusal: Refusal, page: &mut [u8], at: usize) -> Option<usize>
    ensures next { result ≡ next_after 32 (refused_line (refusal_told refusal)) page.old at }
    ensures page { page.new ≡ page_with 32 (refused_line (refusal_told refusal)) page.old at }
{
    if !has_room(32, page, at) {
        return None;
    }
    let number_at = put_text(b"REFUSED ", page, at);
    let byte_at = put_byte(refusal.number, b' ', page, number_at);
    let layer_at = put_number(refusal.byte, b' ', page, byte_at);
    let end_at = put_text(refusal.layer.word(), page, layer_at);
    Some(put_tape_byte(refusal.tape_byte, page, end_at))
}
