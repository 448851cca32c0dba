// The commands of a script: what each line asks for.
use crate::words::{Slip, Unread, Words};
use legal_time::Label;
use std::alloc::Global;

#[derive(Drop)]
pub(crate) enum Command {
    Time { stamp: u32 },
    Stamp(Label),
    Check(Offer),
    Plan { offer: Offer, stamp: u32 },
}

// Bytes that are offered to a calendar as its programme.
#[derive(Drop)]
pub(crate) struct Offer {
    pub(crate) kind: CalendarKind,
    pub(crate) bytes: Vec<u8>,
}

impl Offer {
    fn parse(heap: Global, words: &mut Words) -> Result<Offer, Unread> {
        Ok(Offer {
            kind: words.word()?.try_into()?,
            bytes: words.bytes(heap)?,
        })
    }
}

// The calendars that programmes fill.
#[derive(Clone, Copy)]
pub(crate) enum CalendarKind {
    Month,
    Date,
}

impl TryFrom<&[u8]> for CalendarKind {
    type Error = Slip;

    fn try_from(word: &[u8]) -> Result<CalendarKind, Slip> {
        match word {
            b"month" => Ok(CalendarKind::Month),
            b"date" => Ok(CalendarKind::Date),
            _ => Err(Slip::UnknownCalendar),
        }
    }
}

// The command of a line; none in an empty line and in a comment.
pub(crate) fn parse(heap: Global, line: &[u8]) -> Result<Option<Command>, Unread> {
    let mut words = Words::new(line);
    let Some(name) = words.next() else {
        return Ok(None);
    };
    let command = match name {
        [b'#', ..] => return Ok(None),
        b"time" => Command::Time {
            stamp: words.number()?,
        },
        b"stamp" => Command::Stamp(Label {
            day: words.number()?,
            minute: words.number()?,
            mark: words.number()?,
        }),
        b"check" => Command::Check(Offer::parse(heap, &mut words)?),
        b"plan" => Command::Plan {
            offer: Offer::parse(heap, &mut words)?,
            stamp: words.number()?,
        },
        _ => return Err(Slip::UnknownCommand.into()),
    };
    words.end()?;
    Ok(Some(command))
}
