// The orders that a layer holds.
ghost use Rattle.std.specs.Prelude.{◌≡◌, true, false, [], length, is_ok};
ghost use Rattle.calendars.specs.Meanings.{no_of};
ghost use Rattle.calendars.specs.Orders.{compatible, overlaps, remaining, ruling, order_no, ordered};

use crate::orders::Order;
use arrayvec::ArrayVec;
use legal_time::Cause;

// How many unended orders there may be.
const LIMIT: usize = 8;

// Orders that can be held together, oldest first.
#[derive(Drop)]
pub(crate) struct HeldOrders {
    orders: ArrayVec<Order, LIMIT>,
    ghost sound: { compatible orders.items ≡ true },
}

impl HeldOrders {
    pub(crate) fn new() -> HeldOrders
        ensures { result.orders.items ≡ [] }
    {
        HeldOrders {
            orders: ArrayVec::new(),
        }
    }

    // The period of the order that holds the stamp.
    #[tactic(auto, using(crate::proofs::HeldTogether::period_within))]
    pub(crate) fn period_at(&self, stamp: u32) -> Option<u8>
        ensures { result ≡ ruling self.now.orders.items stamp }
    {
        let order = self.orders.iter().find(|order| order.holds(stamp))?;
        Some(order.period as u8)
    }

    fn overlapped_by(&self, new: &Order) -> bool
        ensures { result ≡ overlaps new.now self.now.orders.items }
    {
        self.orders.iter().any(|order| new.overlaps(order))
    }

    // How many have not ended at the clock.
    fn count_unended(&self, clock: u32) -> usize
        ensures { result ≡ length (remaining clock self.now.orders.items) }
    {
        self.orders
            .iter()
            .filter(|order| order.is_unended(clock))
            .count()
    }

    // Drops those that have ended at the clock.
    fn drop_ended(&mut self, clock: u32)
        ensures { self.new.orders.items ≡ remaining clock self.old.orders.items }
    {
        self.orders.retain(|order| order.is_unended(clock));
    }

    // Takes an order at the clock, unless one of the four questions is answered no.
    #[tactic(auto, using(crate::specs::Compatible::compatible_more), unfolding(crate::specs::Orders::order_no, crate::specs::Orders::ordered))]
    pub(crate) fn admit(&mut self, clock: u32, order: Order) -> Result<(), Cause>
        ensures answer { no_of result ≡ order_no 8 self.old.orders.items clock order }
        ensures orders { self.new.orders.items ≡ ordered 8 self.old.orders.items clock order }
        ensures refused { is_ok result ≡ false → self.new ≡ self.old }
    {
        order.check(clock)?;
        if self.overlapped_by(&order) {
            return Err(Cause::OrderOverlap);
        }
        if self.count_unended(clock) >= LIMIT {
            return Err(Cause::OrderLimit);
        }
        self.drop_ended(clock);
        self.orders.push(order);
        Ok(())
    }
}
