// Keys as a script writes them.
use keys::{Key, KeyFault, Name, Number};
use std::num::ParseIntError;
use thiserror::Error;

// Why a word is no key.
#[derive(Clone, Copy, Debug, Error)]
pub(crate) enum WordFault {
    #[error("cannot be read")]
    Unreadable,
    #[error("refused {0}")]
    Key(#[from] KeyFault),
}

impl From<ParseIntError> for WordFault {
    fn from(_: ParseIntError) -> WordFault {
        WordFault::Unreadable
    }
}

// A kind of key that a word can stand for. An unlawful key is the roster's to refuse, where it can be made at all.
pub(crate) trait Word: Key {
    fn from_word(word: &str) -> Result<Self, WordFault>;
}

impl Word for Number {
    fn from_word(word: &str) -> Result<Number, WordFault> {
        Ok(Number::new(word.parse()?))
    }
}

impl Word for Name {
    fn from_word(word: &str) -> Result<Name, WordFault> {
        Ok(Name::new(word.as_bytes())?)
    }
}
