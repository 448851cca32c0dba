// The rates of a weekday programme. They have a file of their own, since `specs/` names them.
ghost use Rattle.calendars.specs.Meanings.{IsPeriod};

// On Monday to Friday the period `peak` holds from the hour `begin` on until the hour `end`, else `off_peak` does.
#[derive(Clone, Copy)]
pub(crate) struct Rates {
    pub(crate) begin: u8,
    pub(crate) end: u8,
    pub(crate) peak: u8,
    pub(crate) off_peak: u8,
    ghost peaks: { IsPeriod peak },
    ghost falls: { IsPeriod off_peak },
}
