// From bytes that were found lawful to tables.
ghost use Rattle.std.specs.Prelude.{◌≡◌, ◌+◌, ◌*◌, ◌≤◌, length};
ghost use Rattle.calendars.specs.Layouts.{row, bytes_in, weeks_in, slot_in, profile_in, season_in, month_tables, date_tables};

use crate::fields::wide;
use crate::profiles::{DayProfile, MonthDay, Season, Slot};
use crate::tables::{DateTables, MonthTables, SEASON, SLOT, date, month};
use std::array;

fn bytes_at<const N: usize>(bytes: &[u8], first: usize) -> [u8; N]
    requires { first + N ≤ length bytes.now }
    ensures { result ≡ bytes_in bytes.now N first }
{
    array::from_fn(|k| bytes[first + k])
}

fn weeks_at<const N: usize>(bytes: &[u8], first: usize) -> [[u8; 7]; N]
    requires { first + 7 * N ≤ length bytes.now }
    ensures { result ≡ weeks_in bytes.now N first }
{
    // The closure's clauses stand here, since none are inferred where an array is answered.
    array::from_fn(
        |k|
            requires { first + 7 * k + 7 ≤ length bytes.now }
            ensures { result ≡ bytes_in bytes.entry.now 7 (first + 7 * k) }
        { bytes_at(bytes, first + 7 * k) },
    )
}

#[tactic(auto, unfolding(crate::specs::Layouts::slot_in))]
fn slot_at(bytes: &[u8], at: usize) -> Slot
    requires { at + 3 ≤ length bytes.now }
    ensures { result ≡ slot_in bytes.now at }
{
    Slot {
        start: wide(bytes, at),
        period: bytes[at + 2],
    }
}

fn profile_at<const ROOM: usize>(bytes: &[u8], base: usize) -> DayProfile<ROOM>
    requires { base + 1 + 3 * ROOM ≤ length bytes.now }
    ensures { result ≡ profile_in bytes.now ROOM base }
{
    DayProfile {
        count: bytes[base],
        slots: array::from_fn(|k| slot_at(bytes, base + 1 + SLOT * k)),
    }
}

#[tactic(auto, unfolding(crate::specs::Layouts::season_in))]
pub(crate) fn season_at(bytes: &[u8], at: usize) -> Season
    requires { at + 3 ≤ length bytes.now }
    ensures { result ≡ season_in bytes.now at }
{
    Season {
        start: MonthDay {
            month: bytes[at],
            day: bytes[at + 1],
        },
        week: bytes[at + 2],
    }
}

fn seasons_at(bytes: &[u8]) -> [Season; 12]
    requires { 42 ≤ length bytes.now }
    ensures { result ≡ row (λ k. season_in bytes.now (6 + 3 * k)) 12 }
{
    array::from_fn(|k| season_at(bytes, date::SEASONS + SEASON * k))
}

pub(crate) fn month_tables(bytes: &[u8; month::LENGTH]) -> MonthTables
    ensures { result ≡ month_tables bytes.now }
{
    MonthTables {
        seasons: bytes_at(bytes, month::SEASONS),
        weeks: bytes_at(bytes, month::WEEKS),
        days: weeks_at(bytes, month::DAYS),
        profiles: array::from_fn(|k| profile_at(bytes, month::PROFILES + month::PROFILE * k)),
    }
}

pub(crate) fn date_tables(bytes: &[u8; date::LENGTH]) -> DateTables
    ensures { result ≡ date_tables bytes.now }
{
    DateTables {
        count: bytes[date::COUNT],
        seasons: seasons_at(bytes),
        days: weeks_at(bytes, date::DAYS),
        profiles: array::from_fn(|k| profile_at(bytes, date::PROFILES + date::PROFILE * k)),
    }
}
