// Month programmes: each month has a season.
ghost use Rattle.std.specs.Prelude.{◌≡◌, true};
ghost use Rattle.legal_time.specs.Refusals.{reply_of};
ghost use Rattle.calendars.specs.Fields.{first_wrong, found};
ghost use Rattle.calendars.specs.Programmes.{month_plan, month_fields, month_reading};
ghost use Rattle.calendars.specs.Sound.{month_sound};
ghost use Rattle.calendars.specs.Periods.{month_lawful};
ghost use Rattle.calendars.specs.Layouts.{month_tables};
ghost use Rattle.calendars.specs.Lawful.{month_sound_lem};
ghost use Rattle.calendars.specs.Readings;

use crate::decoding::month_tables;
use crate::fields::{Layout, formed};
use crate::profiles::period_on;
use crate::programme::{Programme, ProgrammeCalendar};
use crate::tables::{MonthTables, month};
use legal_time::{Moment, Refusal};

// A calendar that is filled by month programmes.
pub type MonthCalendar = ProgrammeCalendar<MonthProgramme>;

// A month programme that was found lawful.
#[derive(Clone, Copy)]
pub struct MonthProgramme {
    tables: MonthTables,
    ghost sound: { month_sound tables ≡ true },
}

// The fields in the order of the layout.
#[tactic(auto, unfolding(crate::specs::Programmes::month_fields), using(crate::proofs::Checks::followed))]
fn check(bytes: &[u8; month::LENGTH]) -> Result<(), Refusal>
    ensures { reply_of result ≡ found (first_wrong (month_fields bytes.now)) }
{
    let layout = Layout {
        bytes,
        labels: month::LABELS,
    };
    layout.check_choices(4, month::SEASONS, 12)?;
    layout.check_choices(4, month::WEEKS, 4)?;
    layout.check_choices(3, month::DAYS, 28)?;
    layout.check_days(10, month::PROFILES, 3)?;
    layout.check_labels()
}

// The steps of `read` are those of date programmes; all that they call differs.
impl Programme for MonthProgramme {
    ghost plan = { λ p. month_plan p.tables };

    ghost reading = { month_reading };

    ghost lawful = { λ p. month_lawful p.tables p.sound };

    ghost legible = { unfold month_reading in λ bytes. Readings.legible _ (month_fields bytes) _ (λ e. month_lawful (month_tables bytes) (month_sound_lem bytes e)) };

    #[tactic(auto, unfolding(crate::specs::Programmes::month_reading), using(crate::proofs::Judged::answered, crate::specs::Lawful::month_sound_lem))]
    fn read(bytes: &[u8]) -> Result<MonthProgramme, Refusal> {
        let bytes = formed(bytes, b"TPM")?;
        check(bytes)?;
        Ok(MonthProgramme {
            tables: month_tables(bytes),
        })
    }

    #[tactic(auto, unfolding(crate::specs::Sound::month_sound, crate::specs::Programmes::month_plan))]
    fn period_at(&self, moment: Moment) -> u8 {
        let tables = &self.tables;
        let season = tables.seasons[usize::from(moment.month()) - 1];
        let week = tables.weeks[usize::from(season) - 1];
        period_on(&tables.days, &tables.profiles, week, moment)
    }
}
