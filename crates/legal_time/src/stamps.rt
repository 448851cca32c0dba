// From stamps to moments and back.
ghost use Rattle.std.specs.Prelude.{◌≡◌, ◌+◌, if◌then◌else◌};
ghost use Rattle.legal_time.specs.Moments.{MomentAnswer, StampAnswer, SundayOf};

use crate::changes::is_summer;
use crate::dates::{DAY_MINUTES, Day};
use crate::moments::{Label, Moment};
use crate::refusals::{Cause, Refusal};

// The last stamp: 2099-12-31 22:59 UTC, the last minute of that day in local time.
pub const LAST_STAMP: u32 = 52_595_939;

const LAST_DAY: u32 = 36_524;

// Minutes that local time is ahead of UTC.
fn offset_of(summer: bool) -> u32
    ensures { result ≡ (if summer then 120 else 60) }
{
    if summer { 120 } else { 60 }
}

// The moment of a stamp, or a refusal past the last stamp.
#[tactic(auto, using(crate::proofs::Summer::local_is))]
pub fn moment(stamp: u32) -> Result<Moment, Refusal>
    ensures { MomentAnswer stamp result }
{
    if stamp > LAST_STAMP {
        return Err(Cause::StampOutOfRange.into());
    }
    let summer = is_summer(stamp);
    let local = stamp + offset_of(summer);
    let day = Day {
        number: local / DAY_MINUTES,
    };
    let date = day.date();
    Ok(Moment {
        stamp,
        day: day.number,
        minute: (local % DAY_MINUTES) as u16,
        month: date.month,
        day_of_month: date.day,
        weekday: day.weekday(),
        summer,
    })
}

// The one stamp with this label, or a refusal where no stamp has it: outside the range of stamps, and in the hour that the
// clock leaps over in spring.
#[tactic(auto, using(crate::proofs::Labels::label_local, crate::proofs::Labels::label_summer, crate::proofs::Labels::label_bounds))]
pub fn stamp(label: Label) -> Result<u32, Refusal>
    ensures { StampAnswer label.day label.minute label.mark result }
{
    let Label { day, minute, mark } = label;
    let no_label = Err(Cause::NoSuchLabel.into());
    if day > LAST_DAY || minute >= DAY_MINUTES || mark > 1 {
        return no_label;
    }
    let summer = mark == 1;
    let local = day * DAY_MINUTES + minute;
    let offset = offset_of(summer);
    if local < offset || is_summer(local - offset) != summer {
        return no_label;
    }
    Ok(local - offset)
}

impl Moment {
    // The moment of the following stamp, with its true weekday, or a refusal after the last stamp. Local time changes on
    // full hours only, so within an hour only the minute moves.
    pub fn next(&self) -> Result<Moment, Refusal>
        ensures { MomentAnswer (self.now.stamp + 1) result }
    {
        if self.minute % 60 == 59 {
            return moment(self.stamp + 1);
        }
        let mut next = *self;
        next.stamp += 1;
        next.minute += 1;
        next.weekday = Day { number: self.day }.weekday();
        Ok(next)
    }

    // The same moment on a day that counts as a Sunday.
    pub fn as_sunday(&self) -> Moment
        ensures { SundayOf self.now result }
    {
        let mut sunday = *self;
        sunday.weekday = 7;
        sunday
    }
}
