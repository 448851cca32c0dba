// Legal time: stamps, the moments that local law makes of them, and the refusals that every library above shares.
//
// A stamp counts the minutes from 2000-01-01 00:00 UTC and runs to 52,595,939. `moment` gives a stamp its local label,
// `stamp` finds the stamp of a label, and `Moment::next` steps from one minute to the next.
#![tactic(auto)]

mod changes;
mod dates;
pub mod laws;
mod moments;
mod refusals;
mod stamps;

pub use dates::{DAY_MINUTES, Date, month_length};
pub use moments::{Label, Moment};
pub use refusals::{Cause, Refusal};
pub use stamps::{LAST_STAMP, moment, stamp};
