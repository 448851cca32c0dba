// What a calendar is: the interface that licensees implement.
ghost use Rattle.std.specs.Prelude.{◌≡◌, ℕ, false, List, is_ok};
ghost use Rattle.std.specs.List.{AllByRecursion};
ghost use Rattle.legal_time.specs.Refusals.{reply_of};
ghost use Rattle.calendars.specs.Meanings.{Plan, Lawful, LawfulVerdict, Verdict, checked, staged, asked};
ghost use Rattle.calendars.specs.Orders.{IsOrder, Apart, laid, order_no, ordered};
ghost use Rattle.calendars.specs.declared.orders.Order.{Order};

use crate::orders::Order;
use legal_time::{Moment, Refusal};

// A calendar means five things, its ghost members. A map gives every moment a period from 1 to 8; the reading turns any
// bytes into a map or a fault. The period told at a moment is that of the order which holds the moment's stamp, else
// that of the map now. A call changes what its clauses name and nothing else, and a refused one nothing at all.
pub trait Calendar {
    // the plain map now and the plain map next
    ghost current: { Self → Plan };

    ghost upcoming: { Self → Plan };
    // what programmes are read as
    ghost reading: { Self → List ℕ → Verdict Plan };
    // the orders, oldest first, and how many unended ones there may be
    ghost orders: { Self → List Order };

    ghost limit: { Self → ℕ };

    // Tells the period at a moment.
    fn period_at(&self, moment: Moment) -> u8
        ensures { result ≡ laid (orders self.now) (current self.now) moment };

    // Reads a programme and makes it the map next, or answers its fault.
    fn stage(&mut self, programme: &[u8]) -> Result<(), Refusal>
        ensures answer { reply_of result ≡ checked (reading self.old programme.now) }
        ensures upcoming { upcoming self.new ≡ staged (reading self.old programme.now) (upcoming self.old) }
        ensures current { current self.new ≡ current self.old }
        ensures reading { reading self.new ≡ reading self.old }
        ensures orders { orders self.new ≡ orders self.old }
        ensures limit { limit self.new ≡ limit self.old }
        ensures refused { is_ok result ≡ false → self.new ≡ self.old };

    // Makes the map next the map now too.
    fn activate(&mut self)
        ensures current { current self.new ≡ upcoming self.old }
        ensures upcoming { upcoming self.new ≡ upcoming self.old }
        ensures reading { reading self.new ≡ reading self.old }
        ensures orders { orders self.new ≡ orders self.old }
        ensures limit { limit self.new ≡ limit self.old };

    // Takes an order at this clock. It is refused by the first of four questions that is answered no: 10, 11, 12, 13.
    fn order(&mut self, clock: u32, order: Order) -> Result<(), Refusal>
        ensures answer { reply_of result ≡ asked (order_no (limit self.old) (orders self.old) clock order) }
        ensures orders { orders self.new ≡ ordered (limit self.old) (orders self.old) clock order }
        ensures current { current self.new ≡ current self.old }
        ensures upcoming { upcoming self.new ≡ upcoming self.old }
        ensures reading { reading self.new ≡ reading self.old }
        ensures limit { limit self.new ≡ limit self.old }
        ensures refused { is_ok result ≡ false → self.new ≡ self.old };

    ghost lawful: { (c : Self) → Lawful (current c) };

    ghost ahead: { (c : Self) → Lawful (upcoming c) };

    ghost legible: { (c : Self) (bytes : List ℕ) → LawfulVerdict (reading c bytes) };

    ghost sound: { (c : Self) → AllByRecursion IsOrder (orders c) };

    ghost apart: { (c : Self) → Apart (orders c) };
}
