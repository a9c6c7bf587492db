// Parts of lines, put where there is room for them. Each answers the offset after it.
ghost use Rattle.std.specs.Prelude.{◌≡◌, ◌+◌, ◌≤◌, [], ◌∷◌, ◌++◌, length, decimal};
ghost use Rattle.pages.specs.Writing.{free, Wrote};

use keys::{Number, Printed, put};

// Are so many bytes free?
pub(crate) fn has_room(most: usize, page: &[u8], at: usize) -> bool
    ensures { result ≡ free most page.now at }
{
    // the offset may be as large as it likes, so nothing is added to it before
    page.len() >= most && at <= page.len() - most
}

pub(crate) fn put_text(text: &[u8], page: &mut [u8], at: usize) -> usize
    requires { at + length text.now ≤ length page.old }
    ensures { Wrote text.now page.old at page.new result }
{
    let _ = put(page, at, text);
    at + text.len()
}

pub(crate) fn put_printed<K: Printed>(key: &K, page: &mut [u8], at: usize) -> usize
    requires { at + length (K.printed key.now) ≤ length page.old }
    ensures { Wrote (K.printed key.now) page.old at page.new result }
{
    match key.print(page, at) {
        Some(count) => at + count,
        // there is room
        None => unreachable(),
    }
}

fn put_digits(n: u16, page: &mut [u8], at: usize) -> usize
    requires { at + length (decimal n) ≤ length page.old }
    ensures { Wrote (decimal n) page.old at page.new result }
{
    put_printed(&Number::new(n), page, at)
}

// A number in decimal, of at most five digits, and the byte after it.
pub(crate) fn put_number(n: u16, mark: u8, page: &mut [u8], at: usize) -> usize
    requires { at + 6 ≤ length page.old }
    ensures wrote { Wrote (decimal n ++ mark ∷ []) page.old at page.new result }
    ensures brief { result ≤ at + 6 }
{
    let mark_at = put_digits(n, page, at);
    put_text(&[mark], page, mark_at)
}

// The same for a number of at most three digits.
pub(crate) fn put_byte(n: u8, mark: u8, page: &mut [u8], at: usize) -> usize
    requires { at + 4 ≤ length page.old }
    ensures wrote { Wrote (decimal n ++ mark ∷ []) page.old at page.new result }
    ensures brief { result ≤ at + 4 }
{
    let mark_at = put_digits(u16::from(n), page, at);
    put_text(&[mark], page, mark_at)
}
