// Days and dates.
ghost use Rattle.std.specs.Prelude.{◌≡◌, ◌+◌, ◌<◌};
ghost use Rattle.legal_time.specs.Days.{leap_year, month_length, year_of, month_of, day_of_month, weekday_of};

pub const DAY_MINUTES: u32 = 1440;

#[derive(Clone, Copy, PartialEq, Eq, Debug)]
pub struct Date {
    pub year: u16,
    pub month: u8,
    pub day: u8,
}

#[tactic(auto, unfolding(crate::specs::Days::leap_year))]
fn is_leap_year(year: u16) -> bool
    ensures { result ≡ leap_year year }
{
    year % 4 == 0 && (year % 100 != 0 || year % 400 == 0)
}

// The days of a month of the Gregorian calendar. What is no month counts as one of 31 days.
#[tactic(auto, unfolding(crate::specs::Days::month_length))]
pub fn month_length(year: u16, month: u8) -> u8
    ensures { result ≡ month_length year month }
{
    match month {
        2 if is_leap_year(year) => 29,
        2 => 28,
        4 | 6 | 9 | 11 => 30,
        _ => 31,
    }
}

// A day from 2000-01-01, which is 0, to 2099-12-31, by its number. Between these years every fourth is a leap year.
#[derive(Clone, Copy)]
pub(crate) struct Day {
    pub(crate) number: u32,
    ghost in_range: { number < 36525 },
}

impl Day {
    // The years from 2000 to that of the day. Four years have 1,461 days, so no loop is needed.
    #[tactic(auto, using(crate::proofs::Years::year_is))]
    pub(crate) fn years(self) -> u16
        ensures year { 2000 + result ≡ year_of self.number }
        ensures bound { result < 100 }
    {
        (4 * self.number / 1461) as u16
    }

    #[tactic(auto, using(crate::proofs::Years::year_started, crate::proofs::Years::month_more))]
    pub(crate) fn date(self) -> Date
        ensures year { result.year ≡ year_of self.number }
        ensures month { result.month ≡ month_of self.number }
        ensures day { result.day ≡ day_of_month self.number }
    {
        let years = self.years();
        let year = 2000 + years;
        let mut left = self.number - (1461 * u32::from(years) + 3) / 4;
        for month in 1..12 {
            let length = u32::from(month_length(year, month));
            if left < length {
                return Date {
                    year,
                    month,
                    day: (left + 1) as u8,
                };
            }
            left -= length;
        }
        Date {
            year,
            month: 12,
            day: (left + 1) as u8,
        }
    }

    // 1 Monday to 7 Sunday; day 0 is a Saturday.
    pub(crate) fn weekday(self) -> u8
        ensures { result ≡ weekday_of self.number }
    {
        ((self.number + 5) % 7 + 1) as u8
    }
}
