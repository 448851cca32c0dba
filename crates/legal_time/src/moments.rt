// Moments: a stamp with its local label.
ghost use Rattle.std.specs.Prelude.{◌≡◌, ◌<◌, ◌≤◌};
ghost use Rattle.legal_time.specs.Days.{Valid, day_number};
ghost use Rattle.legal_time.specs.Summer.{Timed, Dated, mark_of};

use crate::dates::{Date, Day};

// A stamp with its local day number (2000-01-01 is 0), month, day of the month, weekday (1 Monday to 7 Sunday), minute of
// day and whether summer time holds. The weekday is a number, since week profiles are indexed by it. The ghost fields leave
// only the moments of stamps, and those with their weekday replaced by 7.
#[derive(Clone, Copy, PartialEq, Eq, Debug)]
pub struct Moment {
    pub(crate) stamp: u32,
    pub(crate) day: u32,
    pub(crate) minute: u16,
    pub(crate) month: u8,
    pub(crate) day_of_month: u8,
    pub(crate) weekday: u8,
    pub(crate) summer: bool,
    ghost timed: { Timed stamp day minute summer },
    ghost dated: { Dated day month day_of_month weekday },
}

// What a local clock shows: a local day number, a minute of day and a summer mark, 1 in summer time and else 0. It may
// hold any numbers, also such as no stamp has, so the mark is none of two.
#[derive(Clone, Copy, PartialEq, Eq, Debug)]
pub struct Label {
    pub day: u32,
    pub minute: u32,
    pub mark: u32,
}

impl Moment {
    pub fn stamp(&self) -> u32
        ensures value { result ≡ self.now.stamp }
        ensures bound { result ≤ 52595939 }
    {
        self.stamp
    }

    pub fn day(&self) -> u32
        ensures value { result ≡ self.now.day }
        ensures bound { result < 36525 }
    {
        self.day
    }

    pub fn month(&self) -> u8
        ensures value { result ≡ self.now.month }
        ensures bound { (1 ≤ result) × (result ≤ 12) }
    {
        self.month
    }

    pub fn day_of_month(&self) -> u8
        ensures value { result ≡ self.now.day_of_month }
        ensures bound { (1 ≤ result) × (result ≤ 31) }
    {
        self.day_of_month
    }

    pub fn weekday(&self) -> u8
        ensures value { result ≡ self.now.weekday }
        ensures bound { (1 ≤ result) × (result ≤ 7) }
    {
        self.weekday
    }

    pub fn minute(&self) -> u16
        ensures value { result ≡ self.now.minute }
        ensures bound { result < 1440 }
    {
        self.minute
    }

    // The summer mark, 1 in summer time and else 0, as a label has it.
    pub fn mark(&self) -> u32
        ensures value { result ≡ mark_of self.now.summer }
        ensures bound { result ≤ 1 }
    {
        u32::from(self.summer)
    }

    pub fn label(&self) -> Label
        ensures day { result.day ≡ self.now.day }
        ensures minute { result.minute ≡ self.now.minute }
        ensures mark { result.mark ≡ mark_of self.now.summer }
    {
        Label {
            day: self.day,
            minute: u32::from(self.minute),
            mark: self.mark(),
        }
    }

    // The date with its year, which the moment itself does not hold.
    #[tactic(auto, using(crate::proofs::Years::date_valid, crate::proofs::Years::date_number_lem))]
    pub fn date(&self) -> Date
        ensures valid { Valid result.year result.month result.day }
        ensures number { day_number result.year result.month result.day ≡ self.now.day }
    {
        Day { number: self.day }.date()
    }
}
