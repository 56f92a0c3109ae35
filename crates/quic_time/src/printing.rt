//! How a moment and a length of time print.
ghost use Rattle.std.specs.Prelude.{Some};
ghost use Rattle.std.specs.Fmt.{DisplaysOnOk};
ghost use Rattle.quic_time.specs.Printing.{moment_text, three_digits, duration_text, thousandths_text, fraction_text};

use crate::instant::{Duration, Instant, MICROSECOND, MILLISECOND, SECOND};
use std::fmt::{self, Debug, Display, Formatter};

/// Seconds since the first moment, with nine digits behind the point, as `0.000333000s`. Widths are
/// not heeded.
impl Display for Instant {
    ghost output = { λ moment. Some (moment_text moment) };

    fn fmt<W: fmt::Write>(&self, f: &mut Formatter<W>) -> fmt::Result {
        write_moment(f, self.as_nanos())
    }
}

/// The same as `Display`.
impl Debug for Instant {
    ghost debug_output = { λ moment. Some (moment_text moment) };

    fn fmt<W: fmt::Write>(&self, f: &mut Formatter<W>) -> fmt::Result {
        write_moment(f, self.as_nanos())
    }
}

/// Writes the moment so many nanoseconds after the first.
fn write_moment<W: fmt::Write>(f: &mut Formatter<W>, nanos: u64) -> fmt::Result
    ensures { DisplaysOnOk W.write_str_gives f.old result (Some (moment_text nanos)) f.new }
{
    let whole = nanos / SECOND;
    write!(f, "{whole}.")?;
    write_three_digits(f, nanos / MILLISECOND)?;
    write_three_digits(f, nanos / MICROSECOND)?;
    write_three_digits(f, nanos)?;
    f.write_str("s")
}

/// Writes the last three digits of a number.
fn write_three_digits<W: fmt::Write>(f: &mut Formatter<W>, number: u64) -> fmt::Result
    ensures { DisplaysOnOk W.write_str_gives f.old result (Some (three_digits number)) f.new }
{
    let first = number / 100 % 10;
    let second = number / 10 % 10;
    let third = number % 10;
    write!(f, "{first}{second}{third}")
}

/// As Rust's `Duration` prints lengths that take at most three digits behind the point: a number
/// and its unit, `s`, `ms`, `µs` or `ns`.
///
/// The unit is the greatest of which there is at least one, and that shows the length whole with at
/// most three digits behind the point; zeros at the end are left out. So `40ms`, `1.5s`, `333µs`,
/// `12ns` and `0ns`, and `1234.567µs` where Rust prints `1.234567ms`. Widths are not heeded.
impl Display for Duration {
    ghost output = { λ length. Some (duration_text length) };

    fn fmt<W: fmt::Write>(&self, f: &mut Formatter<W>) -> fmt::Result {
        write_duration(f, self.as_nanos())
    }
}

/// The same as `Display`.
impl Debug for Duration {
    ghost debug_output = { λ length. Some (duration_text length) };

    fn fmt<W: fmt::Write>(&self, f: &mut Formatter<W>) -> fmt::Result {
        write_duration(f, self.as_nanos())
    }
}

/// Writes so many nanoseconds.
fn write_duration<W: fmt::Write>(f: &mut Formatter<W>, nanos: u64) -> fmt::Result
    ensures { DisplaysOnOk W.write_str_gives f.old result (Some (duration_text nanos)) f.new }
{
    if nanos >= SECOND && nanos % MILLISECOND == 0 {
        write_thousandths(f, nanos / MILLISECOND)?;
        f.write_str("s")
    } else if nanos >= MILLISECOND && nanos % MICROSECOND == 0 {
        write_thousandths(f, nanos / MICROSECOND)?;
        f.write_str("ms")
    } else if nanos >= MICROSECOND {
        write_thousandths(f, nanos)?;
        f.write_str("µs")
    } else {
        write!(f, "{nanos}ns")
    }
}

/// Writes so many thousandths of a unit as a number of that unit.
fn write_thousandths<W: fmt::Write>(f: &mut Formatter<W>, thousandths: u64) -> fmt::Result
    ensures { DisplaysOnOk W.write_str_gives f.old result (Some (thousandths_text thousandths)) f.new }
{
    let whole = thousandths / 1000;
    write!(f, "{whole}")?;
    write_fraction(f, thousandths)
}

/// Writes what is behind the point of them.
fn write_fraction<W: fmt::Write>(f: &mut Formatter<W>, thousandths: u64) -> fmt::Result
    ensures { DisplaysOnOk W.write_str_gives f.old result (Some (fraction_text thousandths)) f.new }
{
    let first = thousandths / 100 % 10;
    let second = thousandths / 10 % 10;
    let third = thousandths % 10;
    if thousandths % 1000 == 0 {
        Ok(())
    } else if thousandths % 100 == 0 {
        write!(f, ".{first}")
    } else if thousandths % 10 == 0 {
        write!(f, ".{first}{second}")
    } else {
        write!(f, ".{first}{second}{third}")
    }
}
