// The tables of a programme, as its bytes give them.
ghost use Rattle.std.specs.Prelude.{◌≡◌, ◌≤◌};
ghost use Rattle.calendars.specs.Programmes.{date_number, week_of};

use crate::profiles::{DayProfile, MonthDay, Season};

// Where the parts of a month programme stand in its bytes.
pub(crate) mod month {
    pub(crate) const LENGTH: usize = 166;

    pub(crate) const SEASONS: usize = 5;

    pub(crate) const WEEKS: usize = 17;

    pub(crate) const DAYS: usize = 21;

    pub(crate) const PROFILES: usize = 49;

    // The bytes of a day type: its count and ten slots.
    pub(crate) const PROFILE: usize = 31;

    pub(crate) const LABELS: usize = 142;
}

// Where the parts of a date programme stand.
pub(crate) mod date {
    pub(crate) const LENGTH: usize = 360;

    pub(crate) const COUNT: usize = 5;

    pub(crate) const SEASONS: usize = 6;

    pub(crate) const DAYS: usize = 42;

    pub(crate) const PROFILES: usize = 98;

    // The bytes of a day type: its count and eleven slots.
    pub(crate) const PROFILE: usize = 34;

    pub(crate) const LABELS: usize = 336;
}

// The bytes of a slot: its start in two and its period.
pub(crate) const SLOT: usize = 3;

// The bytes of a season: month, day and week profile.
pub(crate) const SEASON: usize = 3;

// A month programme has a season for each month, a week profile for each season, the day types of each week profile
// from Monday on, and the day types themselves. All are numbered from 1.
#[derive(Clone, Copy)]
pub struct MonthTables {
    pub seasons: [u8; 12],
    pub weeks: [u8; 4],
    pub days: [[u8; 7]; 4],
    pub profiles: [DayProfile<10>; 3],
}

// A date programme has `count` seasons, the day types of each week profile from Monday on, and the day types. It is copied
// whole, so the seasons lie in a plain array.
#[derive(Clone, Copy)]
pub struct DateTables {
    pub count: u8,
    pub seasons: [Season; 12],
    pub days: [[u8; 7]; 8],
    pub profiles: [DayProfile<11>; 7],
}

impl DateTables {
    // The week profile of the last season that has begun on this date. Before the first one of the year the last holds.
    #[tactic(auto, unfolding(crate::specs::Programmes::week_of, crate::specs::Programmes::week_among, crate::specs::Programmes::last_begun))]
    pub(crate) fn week_on(&self, date: MonthDay) -> u8
        requires { (1 ≤ self.now.count) × (self.now.count ≤ 12) }
        ensures { result ≡ week_of self.now.seasons self.now.count (date_number date.month date.day) }
    {
        let seasons = &self.seasons[..usize::from(self.count)];
        let last = seasons[seasons.len() - 1].week;
        seasons.iter().fold(
            last,
            |week, season| if season.has_begun(date) {
                season.week
            } else {
                week
            },
        )
    }
}
