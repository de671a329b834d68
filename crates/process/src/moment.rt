//! The text of a moment in UTC, to the millisecond.

ghost use Rattle.std.specs.Prelude.{◌≡◌, ◌≤◌, ◌<◌, IfOk, IfSome, IsNone, string_bytes};
ghost use Rattle.process.specs.Moments.{IsMoment, date_text, time_text};

use jiff_core::civil::Date;
use std::alloc::{AllocError, Global};
use std::fmt;

/// The milliseconds of a day.
const DAY: u64 = 86_400_000;

/// Returns the text of the moment so many milliseconds after 1970 began in UTC, as
/// `2026-11-26T22:31:04.217Z`. `None` from the year 10000 on.
pub fn moment_text(alloc: Global, milliseconds: u64) -> Result<Option<String>, AllocError>
    ensures text { IfOk result
        (λ found. IfSome found (λ text. IsMoment milliseconds (string_bytes text))) }
    ensures none { IfOk result (λ found. IsNone found → 253402300800000 ≤ milliseconds) }
{
    let day = milliseconds / DAY;
    if day > 2_932_896 {
        return Ok(None);
    }
    let Ok(date) = Date::from_unix_epoch_day(day as i64) else {
        return Ok(None);
    };
    let date = date_text(alloc, date)?;
    let time = time_text(alloc, milliseconds % DAY)?;
    Ok(Some(format!(in alloc; "{date}T{time}Z")?))
}

/// Returns the text of a date, as `2026-11-26`.
fn date_text(alloc: Global, date: Date) -> Result<String, AllocError>
    ensures { IfOk result (λ text. string_bytes text ≡ date_text date) }
{
    let year = FourDigits(date.year.unsigned_abs());
    let month = TwoDigits(u16::from(date.month));
    let day = TwoDigits(u16::from(date.day));
    format!(in alloc; "{year}-{month}-{day}")
}

/// A number in four digits.
#[derive(Clone, Copy)]
struct FourDigits(u16);

impl fmt::Display for FourDigits {
    ghost use Rattle.std.specs.Prelude.{Some};
    ghost use Rattle.process.specs.Moments.{four_digits};

    ghost output = { λ number. Some (four_digits number.0) };

    fn fmt<W: fmt::Write>(&self, f: &mut fmt::Formatter<W>) -> fmt::Result {
        write!(f, "{}{}", TwoDigits(self.0 / 100), TwoDigits(self.0 % 100))
    }
}

/// Returns the text of the time of a day, as `22:31:04.217`, so many milliseconds after it began.
fn time_text(alloc: Global, milliseconds: u64) -> Result<String, AllocError>
    requires { milliseconds < 86400000 }
    ensures { IfOk result (λ text. string_bytes text ≡ time_text milliseconds) }
{
    let hour = TwoDigits((milliseconds / 3_600_000) as u16);
    let minute = TwoDigits((milliseconds / 60_000 % 60) as u16);
    let second = TwoDigits((milliseconds / 1_000 % 60) as u16);
    let rest = ThreeDigits((milliseconds % 1_000) as u16);
    format!(in alloc; "{hour}:{minute}:{second}.{rest}")
}

/// A number in three digits.
#[derive(Clone, Copy)]
struct ThreeDigits(u16);

impl fmt::Display for ThreeDigits {
    ghost use Rattle.std.specs.Prelude.{Some};
    ghost use Rattle.process.specs.Moments.{three_digits};

    ghost output = { λ number. Some (three_digits number.0) };

    fn fmt<W: fmt::Write>(&self, f: &mut fmt::Formatter<W>) -> fmt::Result {
        write!(f, "{}{}", self.0 / 100, TwoDigits(self.0 % 100))
    }
}

/// A number in two digits.
#[derive(Clone, Copy)]
struct TwoDigits(u16);

impl fmt::Display for TwoDigits {
    ghost use Rattle.std.specs.Prelude.{Some};
    ghost use Rattle.process.specs.Moments.{two_digits};

    ghost output = { λ number. Some (two_digits number.0) };

    fn fmt<W: fmt::Write>(&self, f: &mut fmt::Formatter<W>) -> fmt::Result {
        write!(f, "{}{}", self.0 / 10, self.0 % 10)
    }
}
