//! Moments in time.

ghost use Rattle.std.specs.Prelude.{◌<◌, ◌^◌};

use std::fmt;

/// How many seconds a day has.
const DAY: u64 = 86_400;

/// How many days 400 years have, after which the calendar repeats.
const CYCLE: u64 = 146_097;

/// A moment: whole seconds since the start of 1970 (UTC), and nanoseconds past them.
///
/// Moments compare by seconds, then by nanoseconds. They are written as RFC 3339 has it (section 5.6), with nine digits
/// of nanoseconds where there are some: `1970-01-01T00:00:01Z`, `1970-01-01T00:00:01.000000005Z`. A year past 9999 has
/// as many digits as it needs.
#[derive(Clone, Copy, Debug, PartialEq, Eq, PartialOrd, Ord, Hash)]
pub struct Moment {
    /// Whole seconds since the start of 1970 (UTC).
    pub seconds: u64,
    /// Nanoseconds past the seconds, fewer than 1,000,000,000.
    pub nanos: u32,
}

/// The year, the month and the day of the month, of a day counted from the start of 1970.
///
/// Years are taken to begin with March, so that a leap day is a year's last, and are counted in cycles of 400.
fn date_of(days: u64) -> (u64, u64, u64)
    requires { days < 2 ^ 50 }
{
    // 719,468 days lie between March 1 of the year 0 and the start of 1970.
    let days = days + 719_468;
    let day_of_cycle = days % CYCLE;
    let leap_days = (day_of_cycle / 1_460) - (day_of_cycle / 36_524) + (day_of_cycle / 146_096);
    let year_of_cycle = (day_of_cycle - leap_days) / 365;
    let first_day = 365 * year_of_cycle + year_of_cycle / 4 - year_of_cycle / 100;
    let day_of_year = day_of_cycle.saturating_sub(first_day);
    let month_from_march = (5 * day_of_year + 2) / 153;
    let day = day_of_year.saturating_sub((153 * month_from_march + 2) / 5) + 1;
    let year = 400 * (days / CYCLE) + year_of_cycle;
    if month_from_march < 10 {
        (year, month_from_march + 3, day)
    } else {
        (year + 1, month_from_march - 9, day)
    }
}

impl fmt::Display for Moment {
    fn fmt<W: fmt::Write>(&self, f: &mut fmt::Formatter<W>) -> fmt::Result {
        let (year, month, day) = date_of(self.seconds / DAY);
        let second = self.seconds % DAY;
        let (hour, minute) = (second / 3_600, second / 60 % 60);
        write!(
            f,
            "{year:04}-{month:02}-{day:02}T{hour:02}:{minute:02}:{:02}",
            second % 60
        )?;
        if self.nanos != 0 {
            write!(f, ".{:09}", self.nanos)?;
        }
        write!(f, "Z")
    }
}
