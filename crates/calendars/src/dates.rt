// Date programmes: each season starts on a date.
ghost use Rattle.std.specs.Prelude.{◌≡◌, ◌<◌, true};
ghost use Rattle.legal_time.specs.Refusals.{reply_of};
ghost use Rattle.calendars.specs.Fields.{first_wrong, found, parts};
ghost use Rattle.calendars.specs.Programmes.{date_plan, date_lawful, week_lawful, season_fields, date_fields, date_reading};
ghost use Rattle.calendars.specs.Sound.{date_sound};
ghost use Rattle.calendars.specs.Periods.{date_lawful_lem};
ghost use Rattle.calendars.specs.Layouts.{date_tables};
ghost use Rattle.calendars.specs.Lawful.{date_sound_lem};
ghost use Rattle.calendars.specs.Readings;

use crate::decoding::{date_tables, season_at};
use crate::fields::{Layout, check_field, formed, up_to};
use crate::profiles::{MonthDay, period_on};
use crate::programme::{Programme, ProgrammeCalendar};
use crate::tables::{DateTables, SEASON, date};
use legal_time::{Moment, Refusal};

// A calendar that is filled by date programmes.
pub type DateCalendar = ProgrammeCalendar<DateProgramme>;

// A date programme that was found lawful.
#[derive(Clone, Copy)]
pub struct DateProgramme {
    tables: DateTables,
    ghost sound: { date_sound tables ≡ true },
}

// The bytes of a season, by its place among the twelve.
#[derive(Clone, Copy)]
struct SeasonLayout<'a> {
    bytes: &'a [u8; date::LENGTH],
    place: usize,
    ghost within: { place < 12 },
}

impl<'a> SeasonLayout<'a> {
    // Whether its date exists in a common year and lies after that of the season before. Past the count it is zero.
    #[tactic(auto, unfolding(crate::specs::Programmes::date_lawful, crate::specs::Layouts::season_in))]
    fn is_date(&self) -> bool
        ensures { result ≡ date_lawful self.now.bytes.now self.now.place }
    {
        let bytes = self.bytes;
        let at = date::SEASONS + SEASON * self.place;
        let start = season_at(bytes, at).start;
        if self.place >= usize::from(bytes[date::COUNT]) {
            return start == MonthDay { month: 0, day: 0 };
        }
        start.is_common() && (self.place == 0 || season_at(bytes, at - SEASON).start < start)
    }

    #[tactic(auto, unfolding(crate::specs::Programmes::week_lawful))]
    fn is_week(&self) -> bool
        ensures { result ≡ week_lawful self.now.bytes.now self.now.place }
    {
        let week = self.bytes[date::SEASONS + SEASON * self.place + 2];
        if self.place >= usize::from(self.bytes[date::COUNT]) {
            return week == 0;
        }
        up_to(8, week)
    }

    #[tactic(auto, unfolding(crate::specs::Programmes::season_fields))]
    fn check(&self) -> Result<(), Refusal>
        ensures { reply_of result ≡ found (first_wrong (season_fields self.now.bytes.now self.now.place)) }
    {
        let at = date::SEASONS + SEASON * self.place;
        check_field(at, self.is_date())?;
        check_field(at + 2, self.is_week())
    }
}

#[tactic(auto, using(crate::proofs::Checks::looped))]
fn check_seasons(bytes: &[u8; date::LENGTH]) -> Result<(), Refusal>
    ensures { reply_of result ≡ found (first_wrong (parts (season_fields bytes.now) 0 12)) }
{
    for k in 0..12 {
        let season = SeasonLayout { bytes, place: k };
        season.check()?;
    }
    Ok(())
}

// The fields in the order of the layout.
#[tactic(auto, unfolding(crate::specs::Programmes::date_fields), using(crate::proofs::Checks::followed))]
fn check(bytes: &[u8; date::LENGTH]) -> Result<(), Refusal>
    ensures { reply_of result ≡ found (first_wrong (date_fields bytes.now)) }
{
    let layout = Layout {
        bytes,
        labels: date::LABELS,
    };
    check_field(date::COUNT, up_to(12, bytes[date::COUNT]))?;
    check_seasons(bytes)?;
    layout.check_choices(7, date::DAYS, 56)?;
    layout.check_days(11, date::PROFILES, 7)?;
    layout.check_labels()
}

// The steps of `read` are those of month programmes; all that they call differs.
impl Programme for DateProgramme {
    ghost plan = { λ p. date_plan p.tables };

    ghost reading = { date_reading };

    ghost lawful = { λ p. date_lawful_lem p.tables p.sound };

    ghost legible = { unfold date_reading in λ bytes. Readings.legible _ (date_fields bytes) _ (λ e. date_lawful_lem (date_tables bytes) (date_sound_lem bytes e)) };

    #[tactic(auto, unfolding(crate::specs::Programmes::date_reading), using(crate::proofs::Judged::answered, crate::specs::Lawful::date_sound_lem))]
    fn read(bytes: &[u8]) -> Result<DateProgramme, Refusal> {
        let bytes = formed(bytes, b"TPD")?;
        check(bytes)?;
        Ok(DateProgramme {
            tables: date_tables(bytes),
        })
    }

    #[tactic(auto, unfolding(crate::specs::Sound::date_sound, crate::specs::Programmes::date_plan))]
    fn period_at(&self, moment: Moment) -> u8 {
        let tables = &self.tables;
        let date = MonthDay {
            month: moment.month(),
            day: moment.day_of_month(),
        };
        let week = tables.week_on(date);
        period_on(&tables.days, &tables.profiles, week, moment)
    }
}
