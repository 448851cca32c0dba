// What both kinds of programmes are made of.
ghost use Rattle.std.specs.Prelude.{◌≡◌, ◌≤◌, true, length, nat_le};
ghost use Rattle.calendars.specs.Fields.{up_to};
ghost use Rattle.calendars.specs.Programmes.{used, period_of, period_on, common_date, date_number, date_of};
ghost use Rattle.std.specs.List.{list_all};
ghost use Rattle.calendars.specs.Sound.{profile_sound, rising};

use crate::fields::up_to;
use legal_time::{Moment, month_length};

// A year that is no leap year.
const COMMON_YEAR: u16 = 2001;

// A slot of a day: from its start minute on its period holds.
#[derive(Clone, Copy)]
pub struct Slot {
    pub start: u16,
    pub period: u8,
}

// A day type: `count` slots, with room for ROOM. Programmes are copied whole, so the slots lie in a plain array.
#[derive(Clone, Copy)]
pub struct DayProfile<const ROOM: usize> {
    pub count: u8,
    pub slots: [Slot; ROOM],
}

// The period of the last slot that has started. Starts rise, so the first that starts too late ends the look-up. A loop,
// since `take_while` and `fold` were slower.
fn period_in(slots: &[Slot], minute: u16) -> u8
    requires { rising (λ slot. slot.start) slots.now ≡ true }
    ensures { result ≡ period_of slots.now minute }
{
    let mut period = 1;
    for slot in slots {
        if slot.start > minute {
            return period;
        }
        period = slot.period;
    }
    period
}

impl<const ROOM: usize> DayProfile<ROOM> {
    #[tactic(auto, unfolding(crate::specs::Sound::profile_sound))]
    fn period_at(&self, minute: u16) -> u8
        requires { profile_sound self.now ≡ true }
        ensures { result ≡ period_of (used self.now) minute }
    {
        period_in(&self.slots[..usize::from(self.count)], minute)
    }
}

// A day of the year, whatever the year.
#[derive(Clone, Copy, PartialEq, Eq, PartialOrd, Ord)]
pub struct MonthDay {
    pub month: u8,
    pub day: u8,
}

impl MonthDay {
    // A number that rises with the date.
    fn number(self) -> u16
        ensures { result ≡ date_number self.month self.day }
    {
        u16::from_be_bytes([self.month, self.day])
    }

    // A day that every year has.
    #[tactic(auto, unfolding(crate::specs::Programmes::common_date))]
    pub(crate) fn is_common(self) -> bool
        ensures { result ≡ common_date self.month self.day }
    {
        up_to(12, self.month) && up_to(month_length(COMMON_YEAR, self.month), self.day)
    }
}

// A season of a date programme: from its start on its week profile holds.
#[derive(Clone, Copy)]
pub struct Season {
    pub start: MonthDay,
    pub week: u8,
}

impl Season {
    // By numbers: a look-up asks every season, and one comparison is quicker than two.
    pub(crate) fn has_begun(self, date: MonthDay) -> bool
        ensures { result ≡ nat_le (date_of self) (date_number date.month date.day) }
    {
        self.start.number() <= date.number()
    }
}

// The period in a week profile: the weekday has a day type, and that has a slot for the minute.
pub(crate) fn period_on<const ROOM: usize>(
    days: &[[u8; 7]],
    profiles: &[DayProfile<ROOM>],
    week: u8,
    moment: Moment,
) -> u8
    requires week { (1 ≤ week) × (week ≤ length days.now) }
    requires days { list_all (list_all (up_to (length profiles.now))) days.now ≡ true }
    requires profiles { list_all profile_sound profiles.now ≡ true }
    ensures { result ≡ period_on days.now profiles.now week moment }
{
    let day = days[usize::from(week) - 1][usize::from(moment.weekday()) - 1];
    profiles[usize::from(day) - 1].period_at(moment.minute())
}
