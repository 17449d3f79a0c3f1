//! Prints Easter Sunday of each year from 1900 to 2199. The file `stdout` beside `src` is from outside: the dates that
//! Debian's `ncal -e` prints for these years, to which the gate holds this program.

#![tactic(auto)]

use anyhow::Context;
use dates::easter_sunday;

fn main(rt: HostRuntime) -> anyhow::Result<()> {
    for year in 1900..=2199 {
        let day = easter_sunday(year).ok().context("no Easter")?;
        let date = day.civil_date().ok().context("no such day")?;
        println!(rt; "{date}")?;
    }
    Ok(())
}
