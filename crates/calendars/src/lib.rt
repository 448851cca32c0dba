// Calendars: what a calendar is, the calendars that month and date programmes fill, and orders laid over any calendar.
//
// `Calendar` is the interface that licensees implement; its contracts say what every calendar means. `MonthCalendar` and
// `DateCalendar` are filled by programmes, byte strings of a fixed layout, and `OrderLayer` adds mobile orders to any
// calendar below it.
#![tactic(auto)]

mod calendar;
mod dates;
mod decoding;
mod fields;
mod held;
pub mod laws;
mod layer;
mod months;
mod orders;
mod profiles;
mod programme;
mod questions;
mod tables;

pub use calendar::Calendar;
pub use dates::{DateCalendar, DateProgramme};
pub use layer::OrderLayer;
pub use months::{MonthCalendar, MonthProgramme};
pub use orders::Order;
pub use programme::{Programme, ProgrammeCalendar};
pub use questions::refuse_order;
