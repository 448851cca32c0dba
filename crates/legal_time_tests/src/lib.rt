// Examples of legal time, run as tests.
#![tactic(auto)]

#[cfg(test)]
mod tests {
    use legal_time::{Cause, Date, Label, Moment, Refusal, moment, month_length, stamp};
    use std::test::Fail;

    // What a moment shows: date, weekday, minute of day and mark.
    fn shown(stamp: u32) -> Result<(Date, u8, u16, u32), Refusal> {
        let m = moment(stamp)?;
        Ok((m.date(), m.weekday(), m.minute(), m.mark()))
    }

    fn date(year: u16, month: u8, day: u8) -> Date {
        Date { year, month, day }
    }

    fn label(day: u32, minute: u32, mark: u32) -> Label {
        Label { day, minute, mark }
    }

    #[test]
    fn spring_and_autumn(rt: HostRuntime) {
        let spring = date(2024, 3, 31);
        let autumn = date(2024, 10, 27);
        assert_eq!(rt; shown(12_752_699), Ok((spring, 7, 119, 0)));
        assert_eq!(rt; shown(12_752_700), Ok((spring, 7, 180, 1)));
        assert_eq!(rt; shown(13_055_099), Ok((autumn, 7, 179, 1)));
        assert_eq!(rt; shown(13_055_100), Ok((autumn, 7, 120, 0)));
    }

    #[test]
    fn first_and_last(rt: HostRuntime) {
        let refused = Refusal::from(Cause::StampOutOfRange);
        assert_eq!(rt; shown(0), Ok((date(2000, 1, 1), 6, 60, 0)));
        assert_eq!(rt; shown(52_595_939), Ok((date(2099, 12, 31), 4, 1439, 0)));
        assert_eq!(rt; shown(52_595_940), Err(refused));
        assert_eq!(rt; shown(u32::MAX), Err(refused));
        assert_eq!(rt; refused.cause.number(), 4);
    }

    #[test]
    fn labels(rt: HostRuntime) {
        let refused = Refusal::from(Cause::NoSuchLabel);
        assert_eq!(rt; stamp(label(8856, 119, 0)), Ok(12_752_699));
        assert_eq!(rt; stamp(label(8856, 150, 0)), Err(refused));
        assert_eq!(rt; stamp(label(8856, 150, 1)), Err(refused));
        assert_eq!(rt; stamp(label(9066, 150, 1)), Ok(13_055_070));
        assert_eq!(rt; stamp(label(9066, 150, 0)), Ok(13_055_130));
        assert_eq!(rt; stamp(label(0, 59, 0)), Err(refused));
        assert_eq!(rt; stamp(label(u32::MAX, u32::MAX, u32::MAX)), Err(refused));
        assert_eq!(rt; refused.cause.number(), 16);
    }

    #[test]
    fn labels_of_moments(rt: HostRuntime) -> Result<(), Fail> {
        assert_eq!(rt; moment(12_752_699)?.label(), label(8856, 119, 0));
        assert_eq!(rt; moment(12_752_700)?.label(), label(8856, 180, 1));
        Ok(())
    }

    // Stepping and asking anew agree, over both changes of a year and its end.
    #[test]
    fn steps(rt: HostRuntime) -> Result<(), Fail> {
        for start in [12_752_500, 13_054_900, 13_149_000] {
            let mut m = moment(start)?;
            for step in 1..400 {
                m = m.as_sunday().next()?;
                assert_eq!(rt; Ok(m), moment(start + step));
            }
        }
        let last = moment(52_595_939)?;
        assert_eq!(rt; last.next(), Err(Refusal::from(Cause::StampOutOfRange)));
        Ok(())
    }

    #[test]
    fn counts_as_sunday(rt: HostRuntime) -> Result<(), Fail> {
        let monday = moment(1380 + 1440)?;
        let holiday = monday.as_sunday();
        assert_eq!(rt; monday.weekday(), 1);
        assert_eq!(rt; holiday.weekday(), 7);
        assert_eq!(rt; holiday.date(), monday.date());
        assert_eq!(rt; holiday.stamp(), monday.stamp());
        Ok(())
    }

    #[test]
    fn months(rt: HostRuntime) {
        assert_eq!(rt; month_length(2024, 2), 29);
        assert_eq!(rt; month_length(2001, 2), 28);
        assert_eq!(rt; month_length(1900, 2), 28);
        assert_eq!(rt; month_length(2000, 2), 29);
        assert_eq!(rt; month_length(2001, 4), 30);
        assert_eq!(rt; month_length(2001, 12), 31);
    }

    #[test]
    fn a_licensees_own_number(rt: HostRuntime) {
        assert_eq!(rt; Cause::Own(4711).number(), 4711);
        assert_eq!(rt; Cause::FileField.number(), 20);
    }
}
