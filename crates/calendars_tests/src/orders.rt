// Orders over a calendar.
use crate::programmes::{plain_date, put};
use calendars::{Calendar, DateCalendar, MonthCalendar, Order, OrderLayer};
use legal_time::moment;
use std::process::Abort;
use std::test::Fail;

const LAST: u32 = 52_595_939;

fn order(start: u32, length: u32, period: u32) -> Order {
    Order {
        start,
        length,
        period,
    }
}

// The number of the refusal, or 0 where the order is taken.
fn number<C: Calendar>(calendar: &mut C, clock: u32, order: Order) -> u32 {
    match calendar.order(clock, order) {
        Ok(()) => 0,
        Err(refusal) => refusal.cause.number(),
    }
}

// Rows of a stamp and the period there.
fn check_periods<C: Calendar>(
    rt: &impl Abort,
    calendar: &C,
    rows: &[(u32, u8)],
) -> Result<(), Fail> {
    for row in rows {
        let (stamp, period) = *row;
        assert_eq!(rt; calendar.period_at(moment(stamp)?), period);
    }
    Ok(())
}

// The upper layer's orders win and end, and the lower layer's stay as they are.
#[test]
fn two_layers(rt: HostRuntime) -> Result<(), Fail> {
    let mut lower = OrderLayer::new(DateCalendar::new());
    assert_eq!(rt; number(&mut lower, 0, order(1000, 100, 2)), 0);
    let mut upper = OrderLayer::new(lower);
    assert_eq!(rt; number(&mut upper, 0, order(1050, 10, 3)), 0);
    assert_eq!(rt; number(&mut upper, 0, order(1200, 1, 8)), 0);
    check_periods(
        &rt,
        &upper,
        &[
            (999, 1),
            (1000, 2),
            (1049, 2),
            (1050, 3),
            (1059, 3),
            (1060, 2),
            (1099, 2),
            (1100, 1),
            (1199, 1),
            (1200, 8),
            (1201, 1),
        ],
    )?;
    // a programme is told below the orders
    let mut programme = plain_date();
    put(&mut programme, 101, &[4]);
    upper.stage(&programme)?;
    upper.activate();
    check_periods(&rt, &upper, &[(999, 4), (1000, 2), (1050, 3), (1100, 4)])
}

// Each question is asked after those before it.
#[test]
fn refused_orders(rt: HostRuntime) {
    let mut calendar = OrderLayer::new(OrderLayer::new(DateCalendar::new()));
    assert_eq!(rt; number(&mut calendar, 0, order(200, 100, 2)), 0);
    for (start, length, period, answer) in [
        (100, 0, 1, 10),
        (100, 1441, 1, 10),
        (100, 1, 0, 10),
        (100, 1, 9, 10),
        (100, 1, 1, 11),
        (u32::MAX, 1440, 8, 11),
        (LAST, 2, 1, 11),
        (299, 1, 1, 12),
        (101, 100, 1, 12),
        (101, 1440, 1, 12),
        // these are taken
        (101, 99, 1, 0),
        (300, 1440, 8, 0),
        (LAST, 1, 1, 0),
    ] {
        assert_eq!(rt;
            number(&mut calendar, 100, order(start, length, period)),
            answer
        );
    }
}

// Eight unended orders are the most, in each layer of its own.
#[test]
fn room_for_eight(rt: HostRuntime) -> Result<(), Fail> {
    let mut lower = OrderLayer::new(MonthCalendar::new());
    for k in 0..8 {
        assert_eq!(rt; number(&mut lower, 0, order(100 + 10 * k, 10, 1 + k)), 0);
    }
    assert_eq!(rt; number(&mut lower, 0, order(500, 10, 1)), 13);
    // the first order's last minute is 109
    assert_eq!(rt; number(&mut lower, 109, order(500, 10, 1)), 13);
    assert_eq!(rt; number(&mut lower, 110, order(500, 10, 1)), 0);
    assert_eq!(rt; number(&mut lower, 110, order(600, 10, 1)), 13);
    assert_eq!(rt; number(&mut lower, 110, order(505, 10, 1)), 12);
    check_periods(&rt, &lower, &[(109, 1), (110, 2), (179, 8), (180, 1)])?;
    let mut upper = OrderLayer::new(lower);
    assert_eq!(rt; number(&mut upper, 110, order(170, 5, 4)), 0);
    check_periods(
        &rt,
        &upper,
        &[(169, 7), (170, 4), (174, 4), (175, 8), (179, 8)],
    )
}

#[test]
fn calendars_without_orders(rt: HostRuntime) -> Result<(), Fail> {
    let mut months = MonthCalendar::new();
    let mut dates = DateCalendar::new();
    for (start, length, answer) in [(100, 0, 10), (100, 1, 11), (LAST, 2, 11), (101, 1, 13)] {
        assert_eq!(rt; number(&mut months, 100, order(start, length, 1)), answer);
        assert_eq!(rt; number(&mut dates, 100, order(start, length, 1)), answer);
    }
    check_periods(&rt, &months, &[(101, 1)])
}
