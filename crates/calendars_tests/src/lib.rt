// Examples of calendars, run as tests.
#![tactic(auto)]

#[cfg(test)]
mod faults;
#[cfg(test)]
mod orders;
#[cfg(test)]
mod programmes;
#[cfg(test)]
mod telling;
