// The laws of legal time. Each function here exists for its contract, a theorem that the check then asks for.
ghost use Rattle.std.specs.Prelude.{◌≡◌, ℕ, ◌<◌, ◌≤◌, MatchResult};
ghost use Rattle.legal_time.specs.Laws.{OneDate, WeekdaysFollow, LastSundays, SummerIntervals, OneMoment, ThereAndBack, BackAndThere, Edges};
ghost use Rattle.legal_time.specs.Moments.{MomentOf};
ghost use Rattle.legal_time.specs.Refusals.{Refused};
ghost use Rattle.legal_time.specs.Summer.{HasLabel};

use crate::moments::{Label, Moment};
use crate::refusals::Refusal;
use crate::stamps::{moment, stamp};

// Every day from 2000 to 2099 has one date.
#[tactic(auto, using(crate::proofs::Theorems::one_date))]
pub fn one_date()
    ensures { OneDate }
{}

// Day 0 is a Saturday, and weekdays follow each other.
pub fn weekdays_follow()
    ensures { WeekdaysFollow }
{}

// The last Sunday of a month is a Sunday in it, and no later one is.
pub fn last_sundays()
    ensures { LastSundays }
{}

// Summer time holds exactly between the changes of some year.
#[tactic(auto, using(crate::proofs::Theorems::summer_intervals))]
pub fn summer_intervals()
    ensures { SummerIntervals }
{}

// Two moments with the same stamp and weekday are the same, so a stamp has one moment.
#[tactic(auto, using(crate::proofs::Theorems::one_moment))]
pub fn one_moment()
    ensures { OneMoment }
{}

// From a stamp to its label and back is the same stamp.
pub fn there_and_back(from: u32) -> Result<u32, Refusal>
    ensures law { ThereAndBack }
    ensures answer { MatchResult result (λ s. (s ≡ from) × (from ≤ 52595939)) (λ e. Refused e 4 0 0 × (52595939 < from)) }
{
    let there = moment(from)?;
    stamp(there.label())
}

// From a label to its stamp and on to its moment is the same label.
pub fn back_and_there(label: Label) -> Result<Moment, Refusal>
    ensures law { BackAndThere }
    ensures answer { MatchResult result (λ m. MomentOf m.stamp m × HasLabel m.stamp label.day label.minute label.mark) (λ e. Refused e 16 0 0 × ((s : ℕ) → HasLabel s label.day label.minute label.mark → ⊥)) }
{
    moment(stamp(label)?)
}

// The edges around the changes, proved against the definitions as one list.
#[tactic(auto, using(crate::proofs::Changes2024::edges))]
pub fn edges()
    ensures { Edges }
{}
