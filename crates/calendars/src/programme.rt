// Calendars that a programme of a fixed layout fills.
ghost use Rattle.std.specs.Prelude.{◌≡◌, ℕ, List, []};
ghost use Rattle.legal_time.specs.Refusals.{reply_of, given};
ghost use Rattle.calendars.specs.Meanings.{Plan, Lawful, LawfulVerdict, Verdict, alone, planned, unprogrammed};
ghost use Rattle.calendars.specs.Planned.{planned_lawful};
ghost use Rattle.std.proofs.Common.{rules};

use crate::calendar::Calendar;
use crate::orders::Order;
use crate::questions::refuse_order;
use legal_time::{Moment, Refusal};

// A programme that was read. What it means is its plan, a period for every moment; what any bytes are read as is the
// kind's reading.
pub trait Programme: Copy {
    ghost plan: { Self → Plan };

    ghost reading: { List ℕ → Verdict Plan };

    // Reads a programme, or answers its fault.
    fn read(bytes: &[u8]) -> Result<Self, Refusal>
        ensures { given plan (reply_of result) ≡ alone (reading bytes.now) };

    fn period_at(&self, moment: Moment) -> u8
        ensures { result ≡ plan self.now moment };

    ghost lawful: { (p : Self) → Lawful (plan p) };

    ghost legible: { (bytes : List ℕ) → LawfulVerdict (reading bytes) };
}

// A calendar that takes programmes of one kind and no orders. Before its first programme every moment has period 1.
#[derive(Drop)]
pub struct ProgrammeCalendar<P> {
    current: Option<P>,
    upcoming: Option<P>,
}

impl<P: Programme> ProgrammeCalendar<P> {
    pub fn new() -> ProgrammeCalendar<P>
        ensures current { planned P.Programme.plan result.current ≡ unprogrammed }
        ensures upcoming { planned P.Programme.plan result.upcoming ≡ unprogrammed }
    {
        ProgrammeCalendar {
            current: None,
            upcoming: None,
        }
    }
}

impl<P: Programme> Calendar for ProgrammeCalendar<P> {
    ghost current = { λ c. planned P.Programme.plan c.current };

    ghost upcoming = { λ c. planned P.Programme.plan c.upcoming };

    ghost reading = { λ _ bytes. P.Programme.reading bytes };

    ghost orders = { λ _. [] };

    ghost limit = { λ _. 0 };

    ghost lawful = { λ c. planned_lawful P.Programme.plan P.Programme.lawful c.current };

    ghost ahead = { λ c. planned_lawful P.Programme.plan P.Programme.lawful c.upcoming };

    ghost legible = { Prim.search rules };

    ghost sound = { Prim.search rules };

    ghost apart = { Prim.search rules };

    #[tactic(auto, unfolding(crate::specs::Meanings::unprogrammed, crate::specs::Orders::laid))]
    fn period_at(&self, moment: Moment) -> u8 {
        match &self.current {
            Some(programme) => programme.period_at(moment),
            None => 1,
        }
    }

    fn stage(&mut self, programme: &[u8]) -> Result<(), Refusal> {
        self.upcoming = Some(P::read(programme)?);
        Ok(())
    }

    fn activate(&mut self) {
        self.current = self.upcoming;
    }

    fn order(&mut self, clock: u32, order: Order) -> Result<(), Refusal> {
        Err(refuse_order(clock, order))
    }
}
