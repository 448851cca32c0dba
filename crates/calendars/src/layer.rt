// Orders over any calendar.
ghost use Rattle.std.specs.Prelude.{◌≡◌, []};
ghost use Rattle.calendars.specs.Meanings.{carried};
ghost use Rattle.calendars.specs.Orders.{laid};
ghost use Rattle.calendars.specs.Laid.{laid_lawful, carried_lawful};
ghost use Rattle.calendars.specs.Compatible.{all_orders, all_apart};

use crate::calendar::Calendar;
use crate::held::HeldOrders;
use crate::orders::Order;
use legal_time::{Moment, Refusal};

// A calendar with up to 8 orders of its own over the calendar below. Orders below are part of the maps below, so layers
// can be piled.
#[derive(Drop)]
pub struct OrderLayer<C> {
    below: C,
    held: HeldOrders,
}

impl<C> OrderLayer<C> {
    pub fn new(below: C) -> OrderLayer<C>
        ensures below { result.below ≡ below }
        ensures orders { result.held.orders.items ≡ [] }
    {
        OrderLayer {
            below,
            held: HeldOrders::new(),
        }
    }
}

impl<C: Calendar> Calendar for OrderLayer<C> {
    ghost current = { λ c. laid (C.Calendar.orders c.below) (C.Calendar.current c.below) };

    ghost upcoming = { λ c. laid (C.Calendar.orders c.below) (C.Calendar.upcoming c.below) };

    ghost reading = { λ c bytes. carried (laid (C.Calendar.orders c.below)) (C.Calendar.reading c.below bytes) };

    ghost orders = { λ c. c.held.orders.items };

    ghost limit = { λ _. 8 };

    ghost lawful = { λ c. laid_lawful _ _ (C.Calendar.sound c.below) (C.Calendar.lawful c.below) };

    ghost ahead = { λ c. laid_lawful _ _ (C.Calendar.sound c.below) (C.Calendar.ahead c.below) };

    ghost legible = { λ c bytes. carried_lawful _ (C.Calendar.reading c.below bytes) (C.Calendar.sound c.below) (C.Calendar.legible c.below bytes) };

    ghost sound = { λ c. all_orders _ c.held.sound };

    ghost apart = { λ c. all_apart _ c.held.sound };

    fn period_at(&self, moment: Moment) -> u8 {
        // a `match`, since in generic code a proof does not know what a closure for the second case answers
        match self.held.period_at(moment.stamp()) {
            Some(period) => period,
            None => self.below.period_at(moment),
        }
    }

    fn stage(&mut self, programme: &[u8]) -> Result<(), Refusal> {
        self.below.stage(programme)
    }

    fn activate(&mut self) {
        self.below.activate();
    }

    fn order(&mut self, clock: u32, order: Order) -> Result<(), Refusal> {
        self.held.admit(clock, order)?;
        Ok(())
    }
}
