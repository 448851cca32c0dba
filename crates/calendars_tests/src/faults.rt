// What calendars answer to programmes with a fault.
use crate::programmes::{plain_date, plain_month, put, three_seasons, two_seasons};
use calendars::{Calendar, DateProgramme, MonthProgramme, Programme, ProgrammeCalendar};

const LAWFUL: (u32, u8, u32) = (0, 0, 0);

// The number, side and place that a new calendar answers, zeros where it takes the programme.
fn answer<P: Programme>(programme: &[u8]) -> (u32, u8, u32) {
    match ProgrammeCalendar::<P>::new().stage(programme) {
        Ok(()) => LAWFUL,
        Err(refusal) => (refusal.cause.number(), refusal.side, refusal.place),
    }
}

// The place of the field that byte `at` belongs to: a start has two bytes, and a label three.
fn month_field(at: u32) -> u32 {
    if at < 49 {
        at
    } else if at < 142 {
        first_of_start(at, (at - 49) % 31)
    } else {
        at - (at - 142) % 3
    }
}

// The same in a date programme, where a season's month and day are one field.
fn date_field(at: u32) -> u32 {
    if at < 6 {
        at
    } else if at < 42 {
        if (at - 6) % 3 == 1 { at - 1 } else { at }
    } else if at < 98 {
        at
    } else if at < 336 {
        first_of_start(at, (at - 98) % 34)
    } else {
        at - (at - 336) % 3
    }
}

// Byte `at` stands at `within` in its day type.
fn first_of_start(at: u32, within: u32) -> u32 {
    if within % 3 == 2 {
        at.saturating_sub(1)
    } else {
        at
    }
}

// What 255 in byte `at` is answered, which is wrong in every field.
fn spoilt(at: u32, field: u32) -> (u32, u8, u32) {
    if at < 5 { (7, 0, 0) } else { (8, 0, field) }
}

#[test]
fn every_byte_of_a_month_programme(rt: HostRuntime) {
    assert_eq!(rt; answer::<MonthProgramme>(&plain_month()), LAWFUL);
    for at in 0..166 {
        let mut programme = plain_month();
        programme[at as usize] = 255;
        assert_eq!(rt;
            answer::<MonthProgramme>(&programme),
            spoilt(at, month_field(at))
        );
    }
}

#[test]
fn every_byte_of_a_date_programme(rt: HostRuntime) {
    assert_eq!(rt; answer::<DateProgramme>(&plain_date()), LAWFUL);
    for at in 0..360 {
        let mut programme = plain_date();
        programme[at as usize] = 255;
        assert_eq!(rt;
            answer::<DateProgramme>(&programme),
            spoilt(at, date_field(at))
        );
    }
}

// A length is asked before letters and version, and these before the fields.
#[test]
fn lengths_and_letters(rt: HostRuntime) {
    let month = plain_month();
    for length in 0..166 {
        assert_eq!(rt; answer::<MonthProgramme>(&month[0..length]), (6, 0, 0));
    }
    assert_eq!(rt; answer::<MonthProgramme>(&[0; 167]), (6, 0, 0));
    assert_eq!(rt; answer::<MonthProgramme>(&[0; 166]), (7, 0, 0));
    let date = plain_date();
    for length in 0..360 {
        assert_eq!(rt; answer::<DateProgramme>(&date[0..length]), (6, 0, 0));
    }
    assert_eq!(rt; answer::<DateProgramme>(&[0; 361]), (6, 0, 0));
    assert_eq!(rt; answer::<DateProgramme>(&[0; 360]), (7, 0, 0));
    // each takes its own letters only
    assert_eq!(rt; answer::<DateProgramme>(&month), (6, 0, 0));
    let mut other = date;
    put(&mut other, 0, b"TPM");
    assert_eq!(rt; answer::<DateProgramme>(&other), (7, 0, 0));
}

// What is answered after two changes of a byte.
fn changed_month(a: (usize, u8), b: (usize, u8)) -> (u32, u8, u32) {
    let mut programme = two_seasons();
    put(&mut programme, a.0, &[a.1]);
    put(&mut programme, b.0, &[b.1]);
    answer::<MonthProgramme>(&programme)
}

fn changed_date(a: (usize, u8), b: (usize, u8)) -> (u32, u8, u32) {
    let mut programme = three_seasons();
    put(&mut programme, a.0, &[a.1]);
    put(&mut programme, b.0, &[b.1]);
    answer::<DateProgramme>(&programme)
}

#[test]
fn fields_of_a_month_programme(rt: HostRuntime) {
    for (at, byte, place) in [
        (5, 0, 5),
        (16, 5, 16),
        (17, 0, 17),
        (20, 5, 20),
        (21, 4, 21),
        (48, 0, 48),
        // counts: none, too many, and one that leaves a slot over or wants another
        (49, 0, 49),
        (49, 11, 49),
        (49, 2, 56),
        (49, 4, 59),
        // the first start is not 0
        (51, 1, 50),
        // periods: unnamed, none, too large
        (52, 8, 52),
        (55, 0, 55),
        (58, 9, 58),
        // a slot past the count
        (59, 1, 59),
        (60, 1, 59),
        (61, 1, 61),
        (142, 31, 142),
        (143, 127, 142),
        (165, 127, 163),
    ] {
        assert_eq!(rt; changed_month((at, byte), (at, byte)), (8, 0, place));
    }
}

#[test]
fn pairs_of_a_month_programme(rt: HostRuntime) {
    for (a, b, place) in [
        // a start that is that of the slot before, and 1440
        ((53, 0), (54, 0), 53),
        ((56, 1), (57, 104), 56),
        ((56, 5), (57, 160), 56),
        // of two wrong fields the first
        ((165, 31), (5, 0), 5),
        ((61, 1), (60, 1), 59),
        ((85, 9), (58, 9), 58),
    ] {
        assert_eq!(rt; changed_month(a, b), (8, 0, place));
    }
    // one minute after the slot before, and the last minute of the day
    assert_eq!(rt; changed_month((56, 1), (57, 105)), LAWFUL);
    assert_eq!(rt; changed_month((56, 5), (57, 159)), LAWFUL);
    assert_eq!(rt; changed_month((142, 32), (165, 126)), LAWFUL);
}

#[test]
fn fields_of_a_date_programme(rt: HostRuntime) {
    for (at, byte, place) in [
        (5, 0, 5),
        (5, 13, 5),
        (5, 2, 12),
        (5, 4, 15),
        // no such dates: 29 February, the months 0 and 13, day 0 and 31 November
        (7, 29, 6),
        (6, 0, 6),
        (12, 13, 12),
        (10, 0, 9),
        (13, 31, 12),
        // week profiles
        (8, 0, 8),
        (11, 9, 11),
        // a season past the count
        (15, 1, 15),
        (16, 1, 15),
        (17, 1, 17),
        (42, 8, 42),
        (97, 0, 97),
        (98, 0, 98),
        (98, 12, 98),
        (100, 1, 99),
        (101, 8, 101),
        (336, 31, 336),
        (359, 127, 357),
    ] {
        assert_eq!(rt; changed_date((at, byte), (at, byte)), (8, 0, place));
    }
}

#[test]
fn pairs_of_a_date_programme(rt: HostRuntime) {
    for (a, b, place) in [
        // a season on the date of the one before, and before it
        ((9, 2), (10, 28), 9),
        ((12, 2), (13, 27), 12),
        ((105, 1), (106, 104), 105),
        ((105, 5), (106, 160), 105),
        ((359, 31), (5, 13), 5),
        ((17, 1), (16, 1), 15),
        ((101, 9), (97, 8), 97),
    ] {
        assert_eq!(rt; changed_date(a, b), (8, 0, place));
    }
    assert_eq!(rt; changed_date((12, 12), (13, 31)), LAWFUL);
    assert_eq!(rt; changed_date((105, 5), (106, 159)), LAWFUL);
}
