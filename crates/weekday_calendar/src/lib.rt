// A calendar of a licensee's own, as a model to copy: two rates, one in the peak hours of Monday to Friday and one
// elsewhere. It implements `calendars::Calendar` itself, where `ProgrammeCalendar` over its rates would be shorter, to show
// how. docs/OWN_CALENDAR.md walks through it.
//
// Its programme has 8 bytes: the letters WD, the hour at which the peak begins (0 to 23), the hour at which it ends
// (later, at most 24), the peak period and the off-peak period (1 to 8), and two bytes that are zero.
#![tactic(auto)]

mod rates;

ghost use Rattle.std.specs.Prelude.{◌≡◌, []};
ghost use Rattle.legal_time.specs.Refusals.{Refused, reply_of};
ghost use Rattle.calendars.specs.Meanings.{planned, unprogrammed};
ghost use Rattle.calendars.specs.Orders.{laid};
ghost use Rattle.weekday_calendar.specs.Weekdays.{plan_of, weekday_reading, number_and_place, verdict_of, ordered_over};
ghost use Rattle.calendars.specs.Planned.{planned_lawful};
ghost use Rattle.weekday_calendar.specs.Lawful.{rates_lawful};
ghost use Rattle.std.proofs.Common.{rules};

use calendars::{Calendar, DateCalendar, Order, OrderLayer, refuse_order};
use legal_time::{Cause, Moment, Refusal};
use rates::Rates;

const FRIDAY: u8 = 5;

// The minutes of an hour.
const HOUR: u16 = 60;

impl Rates {
    fn period_at(&self, moment: Moment) -> u8
        ensures { result ≡ plan_of self.now moment }
    {
        let minute = moment.minute();
        let from = HOUR * u16::from(self.begin);
        let until = HOUR * u16::from(self.end);
        if moment.weekday() <= FRIDAY && (from..until).contains(&minute) {
            self.peak
        } else {
            self.off_peak
        }
    }
}

// Why bytes are no programme. Only this calendar states these faults.
#[derive(Clone, Copy, PartialEq, Eq, Debug)]
enum Fault {
    Length,
    Letters,
    // the first wrong field
    Field { offset: u32 },
}

// Only the meter names a side.
impl From<Fault> for Refusal {
    ghost from_gives = { λ fault refusal. Refused refusal (number_and_place fault).0 0 (number_and_place fault).1 };

    fn from(fault: Fault) -> Refusal {
        let (number, place) = match fault {
            Fault::Length => (1000, 0),
            Fault::Letters => (1001, 0),
            Fault::Field { offset } => (1002, offset),
        };
        Refusal {
            cause: Cause::Own(number),
            side: 0,
            place,
        }
    }
}

// Reads a programme, or answers its first fault.
#[tactic(auto, unfolding(crate::specs::Weekdays::weekday_reading))]
fn read(bytes: &[u8]) -> Result<Rates, Fault>
    ensures { verdict_of result ≡ weekday_reading bytes.now }
{
    let &[first, second, begin, end, peak, off_peak, zero, other_zero] = bytes else {
        return Err(Fault::Length);
    };
    if [first, second] != *b"WD" {
        return Err(Fault::Letters);
    }
    if begin > 23 {
        return Err(Fault::Field { offset: 2 });
    }
    if end <= begin || end > 24 {
        return Err(Fault::Field { offset: 3 });
    }
    if !(1..=8).contains(&peak) {
        return Err(Fault::Field { offset: 4 });
    }
    if !(1..=8).contains(&off_peak) {
        return Err(Fault::Field { offset: 5 });
    }
    if zero != 0 {
        return Err(Fault::Field { offset: 6 });
    }
    if other_zero != 0 {
        return Err(Fault::Field { offset: 7 });
    }
    Ok(Rates {
        begin,
        end,
        peak,
        off_peak,
    })
}

// The calendar: its programme now and its programme next. Before the first programme every moment has period 1.
#[derive(Drop)]
pub struct WeekdayCalendar {
    current: Option<Rates>,
    upcoming: Option<Rates>,
}

impl WeekdayCalendar {
    pub fn new() -> WeekdayCalendar
        ensures current { planned plan_of result.current ≡ unprogrammed }
        ensures upcoming { planned plan_of result.upcoming ≡ unprogrammed }
    {
        WeekdayCalendar {
            current: None,
            upcoming: None,
        }
    }
}

impl Calendar for WeekdayCalendar {
    ghost current = { λ c. planned plan_of c.current };

    ghost upcoming = { λ c. planned plan_of c.upcoming };

    ghost reading = { λ _ bytes. weekday_reading bytes };

    ghost orders = { λ _. [] };

    ghost limit = { λ _. 0 };

    ghost lawful = { λ c. planned_lawful plan_of rates_lawful c.current };

    ghost ahead = { λ c. planned_lawful plan_of rates_lawful c.upcoming };

    // bytes are read as a plan only if their periods are lawful
    ghost legible = { unfold weekday_reading in λ c bytes. Prim.search rules };

    ghost sound = { Prim.search rules };

    ghost apart = { Prim.search rules };

    #[tactic(auto, unfolding(calendars::specs::Meanings::unprogrammed, calendars::specs::Orders::laid))]
    fn period_at(&self, moment: Moment) -> u8 {
        match &self.current {
            Some(rates) => rates.period_at(moment),
            None => 1,
        }
    }

    fn stage(&mut self, programme: &[u8]) -> Result<(), Refusal> {
        self.upcoming = Some(read(programme)?);
        Ok(())
    }

    fn activate(&mut self) {
        self.current = self.upcoming;
    }

    fn order(&mut self, clock: u32, order: Order) -> Result<(), Refusal> {
        Err(refuse_order(clock, order))
    }
}

// The calendar with up to 8 mobile orders over it.
pub fn with_orders() -> OrderLayer<WeekdayCalendar>
    ensures current { planned plan_of result.below.current ≡ unprogrammed }
    ensures upcoming { planned plan_of result.below.upcoming ≡ unprogrammed }
    ensures orders { result.held.orders.items ≡ [] }
{
    OrderLayer::new(WeekdayCalendar::new())
}

// What is told of a moment once a programme holds and an order was taken over it. The first call that refuses decides.
pub fn told_under_order(
    programme: &[u8],
    clock: u32,
    order: Order,
    moment: Moment,
) -> Result<u8, Refusal>
    ensures { reply_of result ≡ ordered_over (weekday_reading programme.now) clock order moment }
{
    let mut calendar = with_orders();
    calendar.stage(programme)?;
    calendar.activate();
    calendar.order(clock, order)?;
    Ok(calendar.period_at(moment))
}

// Code for any calendar, whatever it is made of and whatever lies over it.
fn told<C: Calendar>(calendar: &C, moment: Moment) -> u8
    ensures { result ≡ laid (C.Calendar.orders calendar.now) (C.Calendar.current calendar.now) moment }
{
    calendar.period_at(moment)
}

// What this calendar with orders, and a date calendar under two layers of orders, tell before any programme and order.
pub fn told_at_first(moment: Moment) -> (u8, u8)
    ensures { result ≡ (1, 1) }
{
    let own = with_orders();
    let piled = OrderLayer::new(OrderLayer::new(DateCalendar::new()));
    (told(&own, moment), told(&piled, moment))
}

#[cfg(test)]
mod tests {
    use super::*;
    use legal_time::{Label, moment, stamp};
    use std::test::Fail;

    // Peak from 6 to 22 o'clock in period 2, else period 5.
    const PROGRAMME: [u8; 8] = [b'W', b'D', 6, 22, 2, 5, 0, 0];

    const MONDAY: u32 = 8857;

    fn fault(number: u32, place: u32) -> Refusal {
        Refusal {
            cause: Cause::Own(number),
            side: 0,
            place,
        }
    }

    // A minute in the summer of 2024.
    fn at(day: u32, minute: u32) -> Result<Moment, Refusal> {
        moment(stamp(Label {
            day,
            minute,
            mark: 1,
        })?)
    }

    #[test]
    fn weekdays_and_sundays(rt: HostRuntime) -> Result<(), Fail> {
        let noon = at(MONDAY, 720)?;
        let mut calendar = WeekdayCalendar::new();
        calendar.stage(&PROGRAMME)?;
        assert_eq!(rt; calendar.period_at(noon), 1);
        calendar.activate();
        assert_eq!(rt; calendar.period_at(at(MONDAY, 359)?), 5);
        assert_eq!(rt; calendar.period_at(at(MONDAY, 360)?), 2);
        assert_eq!(rt; calendar.period_at(noon), 2);
        assert_eq!(rt; calendar.period_at(at(MONDAY, 1319)?), 2);
        assert_eq!(rt; calendar.period_at(at(MONDAY, 1320)?), 5);
        assert_eq!(rt; calendar.period_at(noon.as_sunday()), 5);
        Ok(())
    }

    #[test]
    fn faults(rt: HostRuntime) {
        let mut calendar = WeekdayCalendar::new();
        assert_eq!(rt; calendar.stage(&PROGRAMME[0..7]), Err(fault(1000, 0)));
        assert_eq!(rt;
            calendar.stage(b"WE\x06\x16\x02\x05\0\0"),
            Err(fault(1001, 0))
        );
        assert_eq!(rt;
            calendar.stage(&[87, 68, 24, 25, 9, 9, 1, 1]),
            Err(fault(1002, 2))
        );
        assert_eq!(rt;
            calendar.stage(&[87, 68, 6, 6, 9, 9, 1, 1]),
            Err(fault(1002, 3))
        );
        assert_eq!(rt;
            calendar.stage(&[87, 68, 6, 24, 9, 9, 1, 1]),
            Err(fault(1002, 4))
        );
        assert_eq!(rt;
            calendar.stage(&[87, 68, 6, 24, 8, 0, 1, 1]),
            Err(fault(1002, 5))
        );
        assert_eq!(rt;
            calendar.stage(&[87, 68, 6, 24, 8, 1, 1, 1]),
            Err(fault(1002, 6))
        );
        assert_eq!(rt;
            calendar.stage(&[87, 68, 6, 24, 8, 1, 0, 1]),
            Err(fault(1002, 7))
        );
        assert_eq!(rt; calendar.stage(&[87, 68, 6, 24, 8, 1, 0, 0]), Ok(()));
    }

    #[test]
    fn orders(rt: HostRuntime) -> Result<(), Fail> {
        let noon = at(MONDAY, 720)?;
        let order = Order {
            start: noon.stamp(),
            length: 60,
            period: 8,
        };
        let clock = at(MONDAY, 719)?.stamp();
        assert_eq!(rt; told_under_order(&PROGRAMME, clock, order, noon), Ok(8));
        assert_eq!(rt;
            told_under_order(&PROGRAMME, clock, order, at(MONDAY, 780)?),
            Ok(2)
        );
        let late = Err(Refusal::from(Cause::OrderTime));
        assert_eq!(rt;
            told_under_order(&PROGRAMME, noon.stamp(), order, noon),
            late
        );
        Ok(())
    }
}
