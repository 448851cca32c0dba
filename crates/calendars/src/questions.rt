// The questions that an ordering asks of an order.
ghost use Rattle.std.specs.Prelude.{◌≡◌, ◌+◌, []};
ghost use Rattle.legal_time.specs.Refusals.{number_of, refuses};
ghost use Rattle.calendars.specs.Meanings.{asked, no_of};
ghost use Rattle.calendars.specs.Orders.{holds, shaped, timely, overlap, unended, form_no, order_no, ordered};

use crate::orders::Order;
use legal_time::{Cause, LAST_STAMP, Refusal};

// The stamp that an order's end may not pass.
const END_OF_TIME: u64 = LAST_STAMP as u64 + 1;

impl Order {
    // The stamp after the last one that the order holds. A request may hold any numbers, so their sum is wider than they.
    fn end(&self) -> u64
        ensures { result ≡ self.now.start + self.now.length }
    {
        u64::from(self.start) + u64::from(self.length)
    }

    pub(crate) fn holds(&self, stamp: u32) -> bool
        ensures { result ≡ holds self.now stamp }
    {
        self.start <= stamp && u64::from(stamp) < self.end()
    }

    pub(crate) fn is_shaped(&self) -> bool
        ensures { result ≡ shaped self.now }
    {
        (1..=1440).contains(&self.length) && (1..=8).contains(&self.period)
    }

    pub(crate) fn is_timely(&self, clock: u32) -> bool
        ensures { result ≡ timely clock self.now }
    {
        clock < self.start && self.end() <= END_OF_TIME
    }

    pub(crate) fn overlaps(&self, other: &Order) -> bool
        ensures { result ≡ overlap self.now other.now }
    {
        u64::from(self.start) < other.end() && u64::from(other.start) < self.end()
    }

    pub(crate) fn is_unended(&self, clock: u32) -> bool
        ensures { result ≡ unended clock self.now }
    {
        u64::from(clock) < self.end()
    }

    // The questions that look at the order and the clock alone: its shape, then its time.
    pub(crate) fn check(&self, clock: u32) -> Result<(), Cause>
        ensures { no_of result ≡ form_no clock self.now }
    {
        if !self.is_shaped() {
            return Err(Cause::OrderShape);
        }
        if !self.is_timely(clock) {
            return Err(Cause::OrderTime);
        }
        Ok(())
    }
}

// The refusal of a calendar that takes no orders, and has none afterwards.
#[tactic(auto, unfolding(crate::specs::Orders::order_no, crate::specs::Orders::ordered))]
pub fn refuse_order(clock: u32, order: Order) -> Refusal
    ensures answer { refuses (number_of result.cause) result.side result.place ≡ asked (order_no 0 [] clock order) }
    ensures orders { ordered 0 [] clock order ≡ [] }
{
    order.check(clock).err().unwrap_or(Cause::OrderLimit).into()
}
