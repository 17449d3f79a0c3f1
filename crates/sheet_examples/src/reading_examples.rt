use crate::bench::{Bench, Draft, Due, HALVES, MONTH};
use crate::sheets::program_sheet;
use std::test::Fail;

#[test]
fn payments_of_a_bond(rt: HostRuntime) -> Result<(), Fail> {
    let mut bench = Bench::new(&rt, program_sheet()?);
    bench.not_live(7)?;
    bench.takes(HALVES, 3)?;
    bench.pays(
        7,
        1,
        Due {
            date: (2024, 3, 28),
            fixing: (2023, 9, 27),
            days: 181,
            amount: 2_262_500,
        },
    )?;
    bench.pays(
        7,
        2,
        Due {
            date: (2024, 9, 30),
            fixing: (2024, 3, 26),
            days: 186,
            amount: 2_325_000,
        },
    )?;
    bench.no_payment(7, 0)?;
    bench.no_payment(7, 3)?;
    bench.no_payment(7, u64::MAX)?;
    bench.retires(7)?;
    bench.not_live(7)?;
    Ok(())
}

/// A bond from the 15th of a month of 2024 to that of the next, which pays as much a day as its number says.
const JANUARY: Draft = Draft {
    number: 40,
    effective: (2024, 1, 15),
    maturity: (2024, 2, 15),
    rate: 40,
    ..MONTH
};

const FEBRUARY: Draft = Draft {
    number: 30,
    effective: (2024, 2, 15),
    maturity: (2024, 3, 15),
    rate: 30,
    ..MONTH
};

const MARCH: Draft = Draft {
    number: 20,
    effective: (2024, 3, 15),
    maturity: (2024, 4, 15),
    rate: 20,
    ..MONTH
};

const JANUARY_DUE: Due = Due {
    date: (2024, 2, 15),
    fixing: (2024, 1, 11),
    days: 31,
    amount: 1_240,
};

const FEBRUARY_DUE: Due = Due {
    date: (2024, 3, 15),
    fixing: (2024, 2, 13),
    days: 29,
    amount: 870,
};

const MARCH_DUE: Due = Due {
    date: (2024, 4, 15),
    fixing: (2024, 3, 13),
    days: 31,
    amount: 620,
};

#[test]
fn falling_numbers(rt: HostRuntime) -> Result<(), Fail> {
    let mut bench = Bench::new(&rt, program_sheet()?);
    bench.takes(JANUARY, 2)?;
    bench.takes(FEBRUARY, 2)?;
    bench.takes(MARCH, 2)?;
    bench.pays(40, 1, JANUARY_DUE)?;
    bench.pays(30, 1, FEBRUARY_DUE)?;
    bench.pays(20, 1, MARCH_DUE)?;
    bench.retires(30)?;
    bench.not_live(30)?;
    bench.pays(40, 1, JANUARY_DUE)?;
    bench.pays(20, 1, MARCH_DUE)?;
    bench.enters(30, 3)?;
    // 15 January 2000, a Saturday, goes to the 17th.
    bench.pays(
        30,
        1,
        Due {
            date: (2000, 2, 15),
            fixing: (2000, 1, 13),
            days: 29,
            amount: 29_000,
        },
    )?;
    bench.pays(40, 1, JANUARY_DUE)?;
    bench.pays(20, 1, MARCH_DUE)?;
    Ok(())
}

#[test]
fn first_and_last_days(rt: HostRuntime) -> Result<(), Fail> {
    let mut bench = Bench::new(&rt, program_sheet()?);
    bench.takes(
        Draft {
            effective: (1901, 1, 1),
            maturity: (1901, 2, 1),
            ..MONTH
        },
        2,
    )?;
    bench.takes(
        Draft {
            number: 2,
            effective: (2198, 11, 30),
            maturity: (2198, 12, 31),
            ..MONTH
        },
        2,
    )?;
    // 1 January is closed, and so is the weekend before 31 December.
    bench.pays(
        1,
        1,
        Due {
            date: (1901, 2, 1),
            fixing: (1900, 12, 28),
            days: 30,
            amount: 30_000,
        },
    )?;
    bench.pays(
        2,
        1,
        Due {
            date: (2198, 12, 31),
            fixing: (2198, 11, 28),
            days: 31,
            amount: 31_000,
        },
    )?;
    Ok(())
}

#[test]
fn calls(rt: HostRuntime) -> Result<(), Fail> {
    let mut bench = Bench::new(&rt, program_sheet()?);
    bench.call_enters(HALVES, 3)?;
    bench.no_payment(7, 3)?;
    bench.call_retires(7)?;
    bench.not_live(7)?;
    Ok(())
}
