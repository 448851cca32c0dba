// What calendars tell.
use crate::programmes::{put, three_seasons, two_seasons};
use calendars::{Calendar, DateCalendar, MonthCalendar};
use legal_time::{Label, Moment, Refusal, moment, stamp};
use std::process::Abort;
use std::test::Fail;

// The moment of a local day number, minute of day and summer mark.
fn label(day: u32, minute: u32, mark: u32) -> Result<Moment, Refusal> {
    moment(stamp(Label { day, minute, mark })?)
}

// Rows of a label's three numbers and the period there.
fn check_periods<C: Calendar>(
    rt: &impl Abort,
    calendar: &C,
    rows: &[(u32, u32, u32, u8)],
) -> Result<(), Fail> {
    for row in rows {
        let (day, minute, mark, period) = *row;
        assert_eq!(rt; calendar.period_at(label(day, minute, mark)?), period);
    }
    Ok(())
}

#[test]
fn months(rt: HostRuntime) -> Result<(), Fail> {
    let mut calendar = MonthCalendar::new();
    calendar.stage(&two_seasons())?;
    calendar.activate();
    check_periods(
        &rt,
        &calendar,
        &[
            // Tuesday, 2 January 2024: before and at the starts of slots, and the last minute
            (8767, 0, 0, 1),
            (8767, 359, 0, 1),
            (8767, 360, 0, 2),
            (8767, 1319, 0, 2),
            (8767, 1320, 0, 1),
            (8767, 1439, 0, 1),
            // Sunday, 31 March, and the season's first day
            (8856, 0, 0, 5),
            (8856, 1439, 1, 5),
            (8857, 0, 1, 3),
            (8857, 149, 1, 3),
            (8857, 150, 1, 4),
            // the last day of the season, and the first of the next
            (9070, 1439, 0, 4),
        ],
    )?;
    check_periods(
        &rt,
        &calendar,
        &[
            (9071, 0, 0, 1),
            (9071, 360, 0, 2),
            // Saturday, 2 November, Sunday and Monday
            (9072, 1439, 0, 1),
            (9073, 0, 0, 5),
            (9073, 1439, 0, 5),
            (9074, 0, 0, 1),
        ],
    )
}

// A holiday is told as a Sunday.
#[test]
fn holidays(rt: HostRuntime) -> Result<(), Fail> {
    let mut calendar = MonthCalendar::new();
    calendar.stage(&two_seasons())?;
    calendar.activate();
    let tuesday = label(8767, 720, 0)?;
    assert_eq!(rt; calendar.period_at(tuesday), 2);
    assert_eq!(rt; calendar.period_at(tuesday.as_sunday()), 5);
    Ok(())
}

#[test]
fn dates(rt: HostRuntime) -> Result<(), Fail> {
    let mut calendar = DateCalendar::new();
    calendar.stage(&three_seasons())?;
    calendar.activate();
    check_periods(
        &rt,
        &calendar,
        &[
            // before the first season of the year the last one holds
            (8766, 0, 0, 1),
            (8766, 360, 0, 2),
            (8823, 1439, 0, 1),
            // 28 February 2024, the leap day and 1 March
            (8824, 0, 0, 3),
            (8825, 0, 0, 3),
            (8825, 1439, 0, 3),
            (8826, 0, 0, 4),
            // a Sunday
            (8856, 0, 0, 5),
            // 14 and 15 November
            (9084, 1439, 0, 4),
            (9085, 0, 0, 1),
            (9085, 360, 0, 2),
            (9131, 1320, 0, 1),
        ],
    )
}

// A new calendar tells 1. A programme is told once it is active, and a refused one changes nothing.
#[test]
fn staged_and_active(rt: HostRuntime) -> Result<(), Fail> {
    let noon = label(8767, 720, 0)?;
    let mut calendar = MonthCalendar::new();
    assert_eq!(rt; calendar.period_at(noon), 1);
    assert_eq!(rt; calendar.period_at(moment(0)?), 1);
    assert_eq!(rt; DateCalendar::new().period_at(moment(52_595_939)?), 1);
    calendar.activate();
    assert_eq!(rt; calendar.period_at(noon), 1);
    calendar.stage(&two_seasons())?;
    assert_eq!(rt; calendar.period_at(noon), 1);
    calendar.activate();
    assert_eq!(rt; calendar.period_at(noon), 2);
    let mut other = two_seasons();
    put(&mut other, 55, &[7]);
    calendar.stage(&other)?;
    put(&mut other, 55, &[8]);
    assert!(rt; calendar.stage(&other).is_err());
    assert_eq!(rt; calendar.period_at(noon), 2);
    calendar.activate();
    assert_eq!(rt; calendar.period_at(noon), 7);
    Ok(())
}
