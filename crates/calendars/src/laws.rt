// The laws of orders and calendars. Each function here exists for its contract, a theorem that the check then asks for.
ghost use Rattle.std.specs.Prelude.{◌≡◌, false, is_ok};
ghost use Rattle.legal_time.specs.Refusals.{reply_of};
ghost use Rattle.calendars.specs.Laws.{OrderMinutes, OverlappingOrders, ToldByOneOrder, SlotsFillTheDay, SeasonsFillTheYear, SomeAreRead, programmed};
ghost use Rattle.calendars.specs.Meanings.{staged};

use crate::calendar::Calendar;
use legal_time::{Moment, Refusal};

// An order holds the stamps from its start on, as many as its length.
pub fn order_minutes()
    ensures { OrderMinutes }
{}

// Two orders overlap exactly if they share a stamp.
pub fn overlapping_orders()
    ensures { OverlappingOrders }
{}

// A moment's period is told by the one order that holds its stamp, else by the map.
#[tactic(auto, using(crate::specs::Laid::laid_by_order, crate::specs::Laid::laid_by_map))]
pub fn told_by_one_order()
    ensures { ToldByOneOrder }
{}

// In a programme that is read, every minute of every day type is in exactly one slot, whose period is told.
#[tactic(auto, using(crate::proofs::InTurn::slots_fill_the_day))]
pub fn slots_fill_the_day()
    ensures { SlotsFillTheDay }
{}

// In a date programme that is read, every date is in exactly one season, whose week profile is told.
pub fn seasons_fill_the_year()
    ensures { SeasonsFillTheYear }
{}

// Some bytes are read, as a month and as a date programme.
pub fn some_are_read()
    ensures { SomeAreRead }
{}

// Staged and then activated, a programme is what the calendar tells by, under its orders. One that is refused changes
// nothing.
pub fn programmed_period<C: Calendar>(
    calendar: &mut C,
    programme: &[u8],
    moment: Moment,
) -> Result<u8, Refusal>
    ensures answer { reply_of result ≡ programmed (C.Calendar.orders calendar.old) (C.Calendar.reading calendar.old programme.now) moment }
    ensures current { C.Calendar.current calendar.new ≡ staged (C.Calendar.reading calendar.old programme.now) (C.Calendar.current calendar.old) }
    ensures upcoming { C.Calendar.upcoming calendar.new ≡ staged (C.Calendar.reading calendar.old programme.now) (C.Calendar.upcoming calendar.old) }
    ensures refused { is_ok result ≡ false → calendar.new ≡ calendar.old }
{
    calendar.stage(programme)?;
    calendar.activate();
    Ok(calendar.period_at(moment))
}
