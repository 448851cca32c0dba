// The checks of a programme's fields, in the order of the layout. Each answers the first wrong field of its part.
ghost use Rattle.std.specs.Prelude.{◌≡◌, ◌+◌, ◌*◌, ◌<◌, ◌≤◌, [], ◌∷◌, length, Some, None, MatchResult};
ghost use Rattle.std.specs.List.{list_all};
ghost use Rattle.legal_time.specs.Refusals.{number_of, reply_of};
ghost use Rattle.calendars.specs.Programmes.{misformed};
ghost use Rattle.calendars.specs.Fields.{field, first_wrong, found, parts, wide_at, up_to, choice, named, printable, label_fields, start_lawful, period_lawful, slot_fields, day_fields, day_at, marked};

use crate::tables::SLOT;
use legal_time::{Cause, DAY_MINUTES, Refusal};

// The bytes of a label.
const LABEL: usize = 3;

const LABELS: usize = 8;

// A period whose label is this has no name, and no slot may have it.
const UNNAMED: &[u8; LABEL] = b"XXX";

// The number in two bytes, high byte first.
pub(crate) fn wide(bytes: &[u8], at: usize) -> u16
    requires { at + 2 ≤ length bytes.now }
    ensures { result ≡ wide_at bytes.now at }
{
    u16::from_be_bytes([bytes[at], bytes[at + 1]])
}

pub(crate) fn up_to(most: u8, value: u8) -> bool
    ensures { result ≡ up_to most value }
{
    (1..=most).contains(&value)
}

// The letters and version 1.
#[tactic(auto, unfolding(crate::specs::Fields::marked))]
fn is_marked(bytes: &[u8], letters: &[u8; 3]) -> bool
    requires { 5 ≤ length bytes.now }
    ensures { result ≡ marked letters.now bytes.now }
{
    &bytes[..3] == letters.as_slice() && wide(bytes, 3) == 1
}

// The bytes as those of a layout, if there are as many as it has, with its letters and version.
pub(crate) fn formed<'a, const SIZE: usize>(
    bytes: &'a [u8],
    letters: &[u8; 3],
) -> Result<&'a [u8; SIZE], Cause>
    requires { 5 ≤ SIZE }
    ensures { MatchResult result (λ sized. (misformed SIZE letters.now bytes.now ≡ None) × (sized.now ≡ bytes.now)) (λ cause. misformed SIZE letters.now bytes.now ≡ Some (number_of cause)) }
{
    let sized: &[u8; SIZE] = bytes.try_into().map_err(|_| Cause::ProgrammeLength)?;
    if !is_marked(bytes, letters) {
        return Err(Cause::ProgrammeMark);
    }
    Ok(sized)
}

pub(crate) fn check_field(offset: usize, lawful: bool) -> Result<(), Refusal>
    requires { offset < 1000 }
    ensures { reply_of result ≡ found (first_wrong (field offset lawful ∷ [])) }
{
    if lawful {
        return Ok(());
    }
    Err(Refusal {
        cause: Cause::ProgrammeField,
        side: 0,
        place: offset as u32,
    })
}

#[tactic(auto, unfolding(crate::specs::Fields::printable))]
fn is_printable(byte: u8) -> bool
    ensures { result ≡ printable byte }
{
    (32..=126).contains(&byte)
}

fn is_label(label: &[u8]) -> bool
    ensures { result ≡ list_all printable label.now }
{
    label.iter().all(|byte| is_printable(*byte))
}

// The bytes of a programme, and where its eight labels stand among them.
#[derive(Clone, Copy)]
pub(crate) struct Layout<'a> {
    pub(crate) bytes: &'a [u8],
    pub(crate) labels: usize,
    ghost labelled: { labels + 24 ≤ length bytes.now },
    ghost short: { length bytes.now ≤ 1000 },
}

impl<'a> Layout<'a> {
    // `count` bytes from `first` on, each 1 to `most`.
    #[tactic(auto, unfolding(crate::specs::Fields::choice), using(crate::proofs::Checks::looped))]
    pub(crate) fn check_choices(&self, most: u8, first: usize, count: usize) -> Result<(), Refusal>
        requires { first + count ≤ length self.now.bytes.now }
        ensures { reply_of result ≡ found (first_wrong (parts (choice self.now.bytes.now most first) 0 count)) }
    {
        for k in 0..count {
            check_field(first + k, up_to(most, self.bytes[first + k]))?;
        }
        Ok(())
    }

    // Whether the label of a period names it.
    #[tactic(auto, unfolding(crate::specs::Fields::named))]
    fn is_named(&self, period: u8) -> bool
        requires { (1 ≤ period) × (period ≤ 8) }
        ensures { result ≡ named self.now.bytes.now self.now.labels period }
    {
        let at = self.labels + LABEL * (usize::from(period) - 1);
        &self.bytes[at..at + LABEL] != UNNAMED.as_slice()
    }

    // `count` day types, one after the other from `first` on.
    #[tactic(auto, unfolding(crate::specs::Fields::day_at), using(crate::proofs::Checks::looped, crate::proofs::Rows::stride))]
    pub(crate) fn check_days(&self, room: u8, first: usize, count: usize) -> Result<(), Refusal>
        requires { first + (1 + 3 * room) * count ≤ length self.now.bytes.now }
        ensures { reply_of result ≡ found (first_wrong (parts (day_at self.now.bytes.now self.now.labels room first) 0 count)) }
    {
        for k in 0..count {
            let day = DayLayout {
                programme: *self,
                base: first + (1 + SLOT * usize::from(room)) * k,
                room,
            };
            day.check()?;
        }
        Ok(())
    }

    #[tactic(auto, unfolding(crate::specs::Fields::label_fields))]
    fn check_label(&self, k: usize) -> Result<(), Refusal>
        requires { k < 8 }
        ensures { reply_of result ≡ found (first_wrong (label_fields self.now.bytes.now self.now.labels k)) }
    {
        let at = self.labels + LABEL * k;
        check_field(at, is_label(&self.bytes[at..at + LABEL]))
    }

    #[tactic(auto, using(crate::proofs::Checks::looped))]
    pub(crate) fn check_labels(&self) -> Result<(), Refusal>
        ensures { reply_of result ≡ found (first_wrong (parts (label_fields self.now.bytes.now self.now.labels) 0 8)) }
    {
        for k in 0..LABELS {
            self.check_label(k)?;
        }
        Ok(())
    }
}

// The bytes of a day type: those from `base` on, with room for `room` slots.
#[derive(Clone, Copy)]
struct DayLayout<'a> {
    programme: Layout<'a>,
    base: usize,
    room: u8,
    ghost within: { base + 1 + 3 * room ≤ length programme.bytes.now },
}

impl<'a> DayLayout<'a> {
    // Whether slot `i` may start where it does: the first at 0, each later one after the one before it. Past the day
    // type's count starts are 0.
    #[tactic(auto, unfolding(crate::specs::Fields::start_lawful))]
    fn is_start(&self, i: usize) -> bool
        requires { i < self.now.room }
        ensures { result ≡ start_lawful self.now.programme.bytes.now self.now.base i }
    {
        let bytes = self.programme.bytes;
        let at = self.base + 1 + SLOT * i;
        let start = wide(bytes, at);
        if i == 0 || i >= usize::from(bytes[self.base]) {
            return start == 0;
        }
        wide(bytes, at - SLOT) < start && u32::from(start) < DAY_MINUTES
    }

    // Whether slot `i` may have its period. Past the day type's count periods are 0.
    #[tactic(auto, unfolding(crate::specs::Fields::period_lawful))]
    fn is_period(&self, i: usize) -> bool
        requires { i < self.now.room }
        ensures { result ≡ period_lawful self.now.programme.bytes.now self.now.programme.labels self.now.base i }
    {
        let bytes = self.programme.bytes;
        let period = bytes[self.base + 1 + SLOT * i + 2];
        if i >= usize::from(bytes[self.base]) {
            return period == 0;
        }
        up_to(8, period) && self.programme.is_named(period)
    }

    #[tactic(auto, unfolding(crate::specs::Fields::slot_fields))]
    fn check_slot(&self, i: usize) -> Result<(), Refusal>
        requires { i < self.now.room }
        ensures { reply_of result ≡ found (first_wrong (slot_fields self.now.programme.bytes.now self.now.programme.labels self.now.base i)) }
    {
        let at = self.base + 1 + SLOT * i;
        check_field(at, self.is_start(i))?;
        check_field(at + 2, self.is_period(i))
    }

    #[tactic(auto, unfolding(crate::specs::Fields::day_fields), using(crate::proofs::Checks::looped))]
    fn check(&self) -> Result<(), Refusal>
        ensures { reply_of result ≡ found (first_wrong (day_fields self.now.programme.bytes.now self.now.programme.labels self.now.room self.now.base)) }
    {
        check_field(self.base, up_to(self.room, self.programme.bytes[self.base]))?;
        for i in 0..usize::from(self.room) {
            self.check_slot(i)?;
        }
        Ok(())
    }
}
