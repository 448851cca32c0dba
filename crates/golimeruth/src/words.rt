// The words of a line.
ghost use Rattle.std.specs.Prelude.{◌≡◌, length};
ghost use Rattle.std.specs.Char.{is_ascii_hexdigit};
ghost use Rattle.std.specs.Iterator.{at_most};
ghost use Rattle.std.specs.List.{list_all};
ghost use Rattle.golimeruth.specs.Decimal.{Spells};
ghost use Rattle.golimeruth.specs.Hexadecimal.{SpellsBytes};

use hex::FromHexError;
use std::alloc::{AllocError, Global};
use thiserror::Error;

// Why a line is no command.
#[derive(Clone, Copy, PartialEq, Eq, Debug, Error)]
pub(crate) enum Slip {
    #[error("unknown command")]
    UnknownCommand,
    #[error("word missing")]
    WordMissing,
    #[error("word too many")]
    WordTooMany,
    #[error("not a number")]
    NotANumber,
    #[error("number too large")]
    NumberTooLarge,
    #[error("unknown calendar")]
    UnknownCalendar,
    #[error("not bytes")]
    NotBytes,
}

// Why a line gives no command: it is none, or memory ran out.
#[derive(Debug, Drop, Error)]
pub(crate) enum Unread {
    #[error(transparent)]
    Slip(#[from] Slip),
    #[error(transparent)]
    Memory(AllocError),
}

// What is left of a line: its words, which are separated by spaces.
#[derive(Drop)]
pub(crate) struct Words<'a> {
    rest: &'a [u8],
}

impl<'a> Iterator for Words<'a> {
    type Item = &'a [u8];

    ghost remaining = { λ words. at_most (length words.rest.now) };

    fn next(&mut self) -> Option<&'a [u8]> {
        let start = self.rest.iter().position(|byte| *byte != b' ')?;
        let text = &self.rest[start..];
        let end = text
            .iter()
            .position(|byte| *byte == b' ')
            .unwrap_or(text.len());
        let (word, rest) = text.split_at(end);
        self.rest = rest;
        Some(word)
    }
}

impl<'a> Words<'a> {
    pub(crate) fn new(line: &'a [u8]) -> Words<'a> {
        Words { rest: line }
    }

    // The next word, which the command wants.
    pub(crate) fn word(&mut self) -> Result<&'a [u8], Slip> {
        self.next().ok_or(Slip::WordMissing)
    }

    pub(crate) fn number(&mut self) -> Result<u32, Slip> {
        decimal(self.word()?)
    }

    pub(crate) fn bytes(&mut self, heap: Global) -> Result<Vec<u8>, Unread> {
        hexadecimal(heap, self.word()?)
    }

    pub(crate) fn end(&mut self) -> Result<(), Slip> {
        match self.next() {
            Some(_) => Err(Slip::WordTooMany),
            None => Ok(()),
        }
    }
}

// The number that a word spells. A sum that would pass a `u64` stays at its end, so that a later character is still seen
// to be no digit.
fn decimal(word: &[u8]) -> Result<u32, Slip>
    ensures { Spells word.now result }
{
    let mut value = 0u64;
    for byte in word {
        let digit = char::from(*byte).to_digit(10).ok_or(Slip::NotANumber)?;
        value = value.saturating_mul(10).saturating_add(u64::from(digit));
    }
    u32::try_from(value).map_err(|_| Slip::NumberTooLarge)
}

// A `fold`, since a test that may stop asks a byte at a time, and this asks many at once.
fn is_hexadecimal(word: &[u8]) -> bool
    ensures { result ≡ list_all is_ascii_hexdigit word.now }
{
    word.iter()
        .fold(true, |all, byte| all & byte.is_ascii_hexdigit())
}

// The bytes that a word spells: a pair of digits for each, or a dash for none at all.
#[tactic(auto, using(crate::proofs::Hexadecimal::spelled_as_read, crate::proofs::Hexadecimal::unread_spells_nothing, crate::proofs::Hexadecimal::other_digits_spell_nothing))]
fn hexadecimal(heap: Global, word: &[u8]) -> Result<Vec<u8>, Unread>
    ensures { SpellsBytes word.now result }
{
    if word == b"-".as_slice() {
        return Ok(Vec::new(heap));
    }
    // the decoder asks for memory before it reads a digit, and a bad line should not need any
    if !is_hexadecimal(word) {
        return Err(Unread::Slip(Slip::NotBytes));
    }
    hex::decode(heap, word).map_err(|error| match error {
        FromHexError::OutOfMemory => Unread::Memory(AllocError),
        _ => Unread::Slip(Slip::NotBytes),
    })
}
