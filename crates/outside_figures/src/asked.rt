use anyhow::{Context, bail};
use bonds::Bond;
use calendars::{Target, target_calendar};
use conventions::{Adjuster, Convention, Following, ModifiedFollowing, Preceding, Unadjusted};
use dates::Day;
use notation::{date_of, number_of};
use std::alloc::Global;
use std::fmt::Write;

/// Writes a space and a day's civil date.
fn write_date(out: &mut String, day: Day) -> anyhow::Result<()> {
    let date = day.civil_date().ok().context("no such day")?;
    write!(out, " {date}")?;
    Ok(())
}

/// Writes the adjusted day of a date under a convention.
fn write_adjusted<C: Convention>(
    out: &mut String,
    target: &Target,
    convention: &C,
    u: Unadjusted,
) -> anyhow::Result<()> {
    let adjuster = Adjuster {
        calendar: target,
        convention,
    };
    let adjusted = adjuster.adjust(u).ok().context("no adjusted day")?;
    write_date(out, adjusted.day())
}

fn read_date(word: &str) -> anyhow::Result<Day> {
    date_of(word.as_bytes()).context("no date")
}

fn read_number(word: &str) -> anyhow::Result<u64> {
    number_of(word.as_bytes()).context("no number")
}

/// Writes the adjusted days of a date under F, P and M.
fn write_adjusted_days(out: &mut String, date: &str) -> anyhow::Result<()> {
    let target = target_calendar().ok().context("no calendar")?;
    let u = Unadjusted(read_date(date)?.0);
    write_adjusted(out, &target, &Following, u)?;
    write_adjusted(out, &target, &Preceding, u)?;
    write_adjusted(out, &target, &ModifiedFollowing, u)
}

/// Writes the unadjusted rolls of a bond.
fn write_rolls(out: &mut String, bond: &Bond) -> anyhow::Result<()> {
    let terms = bond.terms().ok().context("out of range")?;
    let rolls = terms.rolls().ok().context("too many rolls")?;
    out.push(':')?;
    for u in (0..rolls.count()).filter_map(|i| rolls.day(i)) {
        write_date(out, Day(u.0))?;
    }
    Ok(())
}

/// The line with its answer behind it.
pub(crate) fn answer(heap: Global, line: &str) -> anyhow::Result<String> {
    let words: Vec<&str> = line.split(' ').collect(heap)?;
    let mut out = String::from_str(heap, line)?;
    match words.as_slice() {
        [_, date] => write_adjusted_days(&mut out, date)?,
        [_, months, stub, mark, effective, maturity] => {
            let bond = Bond {
                number: 1,
                months: read_number(months)?,
                stub: read_number(stub)?,
                mark: read_number(mark)?,
                effective: read_date(effective)?,
                maturity: read_date(maturity)?,
                lag: 0,
                face: 1,
                rate: 0,
            };
            write_rolls(&mut out, &bond)?;
        }
        _ => bail!("two words or six"),
    }
    Ok(out)
}
