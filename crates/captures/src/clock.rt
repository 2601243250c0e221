//! The time at which a packet was captured.

use std::fmt;

/// A time, counted from the beginning of 1970 in UTC.
#[derive(Clone, Copy)]
pub struct Moment {
    pub seconds: u64,
    pub nanoseconds: u32,
}

/// The nanoseconds in a second.
const SECOND: u64 = 1_000_000_000;

/// The first second of the year 10000. This and later times are not printed as dates.
const LAST: u64 = 253_402_300_800;

impl Moment {
    /// Returns the time after this number of ticks, with `in_second` ticks in a second. Returns
    /// `None` if `in_second` is 0 or more than 1000000000.
    pub fn after(ticks: u64, in_second: u64) -> Option<Moment> {
        if in_second == 0 || in_second > SECOND {
            return None;
        }
        let seconds = ticks / in_second;
        let left = ticks % in_second;
        let nanoseconds = left.saturating_mul(SECOND) / in_second;
        Some(Moment {
            seconds,
            nanoseconds: u32::try_from(nanoseconds).unwrap_or(0),
        })
    }
}

/// A date of the calendar.
#[derive(Clone, Copy)]
struct Date {
    year: u64,
    month: u64,
    day: u64,
}

/// Returns the date of a day, counted from the beginning of 1970. The calculation counts days from
/// March 1, in spans of 400 years, so that a leap day is the last day of its year.
fn date_of(days: u64) -> Date {
    let days = days.saturating_add(719_468);
    let (era, day_of_era) = (days / 146_097, days % 146_097);
    let leap = day_of_era / 1460 + day_of_era / 146_096;
    let year = (day_of_era
        .saturating_add(day_of_era / 36_524)
        .saturating_sub(leap))
        / 365;
    let before = (365 * year + year / 4).saturating_sub(year / 100);
    let day_of_year = day_of_era.saturating_sub(before);
    let month = (5 * day_of_year + 2) / 153;
    let day = day_of_year
        .saturating_sub((153 * month + 2) / 5)
        .saturating_add(1);
    let is_after = month >= 10;
    Date {
        year: era
            .saturating_mul(400)
            .saturating_add(year)
            .saturating_add(u64::from(is_after)),
        month: if is_after { month - 9 } else { month + 3 },
        day,
    }
}

impl fmt::Display for Moment {
    fn fmt<W: fmt::Write>(&self, f: &mut fmt::Formatter<W>) -> fmt::Result {
        let Moment {
            seconds,
            nanoseconds,
        } = *self;
        if seconds < LAST {
            let Date { year, month, day } = date_of(seconds / 86_400);
            let (hour, minute, second) = (seconds / 3600 % 24, seconds / 60 % 60, seconds % 60);
            write!(
                f,
                "{year}-{month:02}-{day:02} {hour:02}:{minute:02}:{second:02}"
            )?;
        } else {
            write!(f, "{seconds} s")?;
        }
        if nanoseconds % 1000 == 0 {
            let microseconds = nanoseconds / 1000;
            write!(f, ".{microseconds:06}")
        } else {
            write!(f, ".{nanoseconds:09}")
        }
    }
}
