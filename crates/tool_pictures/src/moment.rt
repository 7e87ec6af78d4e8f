//! Times of a volume, as a reader writes them.
use image::{Image, SegmentInfo};
use std::fmt;

const MINUTE: u64 = 60;

const HOUR: u64 = 60 * MINUTE;

const DAY: u64 = 24 * HOUR;

// Days from the first of March of the year 0 to the first day of 1970.
const DAYS_TO_1970: u64 = 719_468;

// Days of 400 years of the Gregorian calendar, of which each 400 have as many.
const ERA: u64 = 146_097;

/// A time in seconds since 1970, shown in UTC to the minute, as `2026-11-29 14:05`.
#[derive(Clone, Copy)]
pub struct Moment(pub u64);

impl fmt::Display for Moment {
    fn fmt<W: fmt::Write>(&self, f: &mut fmt::Formatter<W>) -> fmt::Result {
        let Date { year, month, day } = Date::of_days(self.0 / DAY);
        let hour = self.0 % DAY / HOUR;
        let minute = self.0 % HOUR / MINUTE;
        write!(f, "{year:04}-{month:02}-{day:02} {hour:02}:{minute:02}")
    }
}

// A day of the Gregorian calendar.
struct Date {
    year: u64,
    month: u64,
    day: u64,
}

impl Date {
    // The date of so many days since 1970. It is counted in years that begin in March, so that a leap day is a year's last.
    fn of_days(days: u64) -> Date {
        let days = days.saturating_add(DAYS_TO_1970);
        let in_era = days % ERA;
        let leap_days = (in_era / 1_460).saturating_add(in_era / 146_096);
        let year_days = in_era
            .saturating_add(in_era / 36_524)
            .saturating_sub(leap_days);
        let year = year_days / 365;
        let in_year = in_era
            .saturating_add(year / 100)
            .saturating_sub(year.saturating_mul(365).saturating_add(year / 4));
        let month = in_year.saturating_mul(5).saturating_add(2) / 153;
        let before = month.saturating_mul(153).saturating_add(2) / 5;
        let is_new_year = month >= 10;
        let years = (days / ERA).saturating_mul(400).saturating_add(year);
        Date {
            year: if is_new_year {
                years.saturating_add(1)
            } else {
                years
            },
            month: if is_new_year {
                month.saturating_sub(9)
            } else {
                month.saturating_add(3)
            },
            day: in_year.saturating_sub(before).saturating_add(1),
        }
    }
}

/// When a segment was last written, where the volume keeps it: the time of a node is not kept.
pub fn written_at(info: &SegmentInfo) -> Option<Moment> {
    if info.mtime > 0 {
        Some(Moment(info.mtime))
    } else {
        None
    }
}

/// When the segments in use were last written, of those whose time is kept. It is shown as `from 2026-11-28 09:00 to 2026-11-29 14:05
/// (UTC)`, or `at` one time.
#[derive(Clone, Copy)]
pub struct Ages {
    pub oldest: u64,
    pub youngest: u64,
}

impl Ages {
    /// None where no segment in use has a time.
    pub fn of(image: &Image) -> Option<Ages> {
        let used = image.sit.iter().filter(|info| info.count > 0);
        let oldest = used.map(|info| info.mtime).filter(|time| *time > 0).min()?;
        let used = image.sit.iter().filter(|info| info.count > 0);
        let youngest = used.map(|info| info.mtime).max()?;
        Some(Ages { oldest, youngest })
    }
}

impl fmt::Display for Ages {
    fn fmt<W: fmt::Write>(&self, f: &mut fmt::Formatter<W>) -> fmt::Result {
        let youngest = Moment(self.youngest);
        if self.oldest / MINUTE == self.youngest / MINUTE {
            write!(f, "at {youngest} (UTC)")
        } else {
            write!(f, "from {} to {youngest} (UTC)", Moment(self.oldest))
        }
    }
}
