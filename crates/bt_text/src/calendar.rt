//! Days since 1 January of the year 0, by the calendar of `jiff`.
ghost use Rattle.std.specs.Prelude.{◌≡◌, ◌+◌, ◌<◌, ◌+ℤ◌, IfSome, Some, pos, unsigned_abs};
ghost use Rattle.jiff_core.specs.Date.{epoch_day};
ghost use Rattle.bt_text.specs.Calendar.{day_number};

use jiff::civil::Date;
use jiff_core::civil;

// The days before the years 1970 and 10000.
pub(crate) const DAY_OF_1970: u64 = 719_528;

pub(crate) const ALL_DAYS: u64 = 3_652_425;

// The day of a date, where the calendar has it.
#[tactic(auto, using(crate::proofs::Dates::is_day))]
pub(crate) fn day_number(year: u64, month: u64, day: u64) -> Option<u64>
    requires year { year < 10000 }
    requires month { month < 100 }
    requires day { day < 100 }
    ensures value { result ≡ day_number year month day }
    ensures below { IfSome result (λ n. n < ALL_DAYS) }
{
    match Date::new(year as i16, month as i8, day as i8) {
        Ok(date) => Some(days_before(date)),
        Err(_) => None,
    }
}

fn days_before(date: Date) -> u64
    ensures value { result ≡ unsigned_abs (epoch_day date +ℤ pos DAY_OF_1970) }
    ensures below { result < ALL_DAYS }
{
    (date.to_plain().to_unix_epoch_day() + DAY_OF_1970 as i32).unsigned_abs() as u64
}

// The date that lies so many days after 1 January 1970.
pub(crate) fn date_of(days: u64) -> civil::Date
    requires { DAY_OF_1970 + days < ALL_DAYS }
    ensures { day_number (unsigned_abs result.year) result.month result.day ≡ Some (DAY_OF_1970 + days) }
{
    match civil::Date::from_unix_epoch_day(days as i64) {
        Ok(date) => date,
        Err(_) => unreachable!(),
    }
}
