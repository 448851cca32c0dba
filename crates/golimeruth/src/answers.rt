// What the console answers.
ghost use Rattle.std.specs.Prelude.{◌≡◌, vec_items};
ghost use Rattle.legal_time.specs.Refusals.{reply_of};
ghost use Rattle.calendars.specs.Meanings.{checked};
ghost use Rattle.golimeruth.specs.Performed.{Performed, PlanAnswer, reading_of};

use crate::commands::{CalendarKind, Command, Offer};
use calendars::{
    Calendar, DateCalendar, DateProgramme, MonthCalendar, MonthProgramme, Programme,
    ProgrammeCalendar,
};
use legal_time::{Date, Moment, Refusal};
use std::fmt;

#[derive(Clone, Copy)]
pub(crate) enum Answer {
    Moment(Moment),
    Stamp(u32),
    Lawful,
    Period(u8),
}

// Each command makes one call, and its answer is the call's.
pub(crate) fn perform(command: Command) -> Result<Answer, Refusal>
    ensures { Performed command result }
{
    match command {
        Command::Time { stamp } => legal_time::moment(stamp).map(Answer::Moment),
        Command::Stamp(label) => legal_time::stamp(label).map(Answer::Stamp),
        Command::Check(offer) => offer.check().map(|()| Answer::Lawful),
        Command::Plan { offer, stamp } => offer.plan(stamp).map(Answer::Period),
    }
}

// The calendar's kind picks a calendar in one of these and a type in the other, so each has its `match`.
impl Offer {
    // Whether the calendar takes the programme.
    fn check(&self) -> Result<(), Refusal>
        ensures { reply_of result ≡ checked (reading_of self.now.kind (vec_items self.now.bytes)) }
    {
        let programme = self.bytes.as_slice();
        match self.kind {
            CalendarKind::Month => MonthCalendar::new().stage(programme),
            CalendarKind::Date => DateCalendar::new().stage(programme),
        }
    }

    // The period at a stamp in a calendar that has only this programme.
    fn plan(&self, stamp: u32) -> Result<u8, Refusal>
        ensures { PlanAnswer (reading_of self.now.kind (vec_items self.now.bytes)) stamp result }
    {
        let programme = self.bytes.as_slice();
        match self.kind {
            CalendarKind::Month => planned::<MonthProgramme>(programme, stamp),
            CalendarKind::Date => planned::<DateProgramme>(programme, stamp),
        }
    }
}

// The programme is asked before the stamp.
#[tactic(auto, using(crate::proofs::Told::told))]
fn planned<P: Programme>(programme: &[u8], stamp: u32) -> Result<u8, Refusal>
    ensures { PlanAnswer (P.Programme.reading programme.now) stamp result }
{
    let mut calendar = ProgrammeCalendar::<P>::new();
    calendar.stage(programme)?;
    let moment = legal_time::moment(stamp)?;
    calendar.activate();
    Ok(calendar.period_at(moment))
}

impl fmt::Display for Answer {
    fn fmt<W: fmt::Write>(&self, f: &mut fmt::Formatter<W>) -> fmt::Result {
        match self {
            Answer::Moment(moment) => show_moment(moment, f),
            Answer::Stamp(stamp) => write!(f, "stamp {stamp}"),
            Answer::Lawful => f.write_str("lawful"),
            Answer::Period(period) => write!(f, "period {period}"),
        }
    }
}

// A refusal as the console prints it.
#[derive(Clone, Copy)]
pub(crate) struct Refused(pub(crate) Refusal);

impl fmt::Display for Refused {
    fn fmt<W: fmt::Write>(&self, f: &mut fmt::Formatter<W>) -> fmt::Result {
        let Refusal { cause, side, place } = self.0;
        let number = cause.number();
        write!(f, "refused {number} side {side} place {place}")
    }
}

fn show_moment<W: fmt::Write>(moment: &Moment, f: &mut fmt::Formatter<W>) -> fmt::Result {
    let Date { year, month, day } = moment.date();
    write!(
        f,
        "moment {} day {} date {year:04}-{month:02}-{day:02} weekday {} minute {} mark {}",
        moment.stamp(),
        moment.day(),
        moment.weekday(),
        moment.minute(),
        moment.mark()
    )
}
