use crate::date_examples::on;
use bonds::Bond;
use dates::{CivilDate, Day};
use faults::SheetFault;
use std::process::Abort;
use std::test::Fail;

/// Months, stub and mark are written over it, and the days.
const PLAIN: Bond = Bond {
    number: 7,
    effective: Day(0),
    maturity: Day(0),
    months: 1,
    stub: 0,
    mark: 0,
    lag: 2,
    face: 100,
    rate: 1_000,
};

/// The rolls of a bond from the first to the last of these dates are just these dates.
fn check_rolls(rt: &impl Abort, bond: Bond, dates: &[CivilDate]) -> Result<(), Fail> {
    let effective = dates.first().copied().ok_or("no dates")?.day()?;
    let maturity = dates.last().copied().ok_or("no dates")?.day()?;
    let bond = Bond {
        effective,
        maturity,
        ..bond
    };
    let rolls = bond.terms()?.rolls()?;
    for (i, date) in (0u32..).zip(dates) {
        let roll = rolls.day(i).ok_or("no roll")?;
        assert_eq!(rt; roll.0, date.day()?.0);
    }
    assert_eq!(rt; usize::try_from(rolls.count()), Ok(dates.len()));
    assert!(rt; rolls.day(rolls.count()).is_none());
    Ok(())
}

#[test]
fn stubs(rt: HostRuntime) -> Result<(), Fail> {
    check_rolls(
        &rt,
        Bond { months: 3, ..PLAIN },
        &[
            on(2024, 1, 15),
            on(2024, 3, 20),
            on(2024, 6, 20),
            on(2024, 9, 20),
            on(2024, 12, 20),
        ],
    )?;
    check_rolls(
        &rt,
        Bond {
            months: 3,
            stub: 1,
            ..PLAIN
        },
        &[
            on(2024, 1, 15),
            on(2024, 6, 20),
            on(2024, 9, 20),
            on(2024, 12, 20),
        ],
    )?;
    check_rolls(
        &rt,
        Bond {
            months: 3,
            stub: 2,
            ..PLAIN
        },
        &[
            on(2024, 1, 15),
            on(2024, 4, 15),
            on(2024, 7, 15),
            on(2024, 10, 15),
            on(2024, 12, 20),
        ],
    )?;
    check_rolls(
        &rt,
        Bond {
            months: 3,
            stub: 3,
            ..PLAIN
        },
        &[
            on(2024, 1, 15),
            on(2024, 4, 15),
            on(2024, 7, 15),
            on(2024, 12, 20),
        ],
    )?;
    check_rolls(
        &rt,
        Bond {
            months: 3,
            stub: 1,
            ..PLAIN
        },
        &[on(2024, 1, 15), on(2024, 2, 10)],
    )
}

#[test]
fn no_stub(rt: HostRuntime) -> Result<(), Fail> {
    for stub in [0, 1, 2, 3] {
        check_rolls(
            &rt,
            Bond {
                months: 3,
                stub,
                ..PLAIN
            },
            &[
                on(2024, 1, 15),
                on(2024, 4, 15),
                on(2024, 7, 15),
                on(2024, 10, 15),
            ],
        )?;
    }
    Ok(())
}

#[test]
fn ends_of_months(rt: HostRuntime) -> Result<(), Fail> {
    check_rolls(
        &rt,
        Bond { stub: 2, ..PLAIN },
        &[
            on(2023, 12, 31),
            on(2024, 1, 31),
            on(2024, 2, 29),
            on(2024, 3, 31),
            on(2024, 4, 30),
        ],
    )?;
    check_rolls(
        &rt,
        Bond { stub: 2, ..PLAIN },
        &[
            on(2023, 1, 29),
            on(2023, 2, 28),
            on(2023, 3, 29),
            on(2023, 4, 29),
        ],
    )?;
    check_rolls(
        &rt,
        PLAIN,
        &[
            on(2023, 1, 30),
            on(2023, 2, 28),
            on(2023, 3, 30),
            on(2023, 4, 30),
        ],
    )?;
    check_rolls(
        &rt,
        Bond { mark: 1, ..PLAIN },
        &[
            on(2023, 1, 28),
            on(2023, 1, 31),
            on(2023, 2, 28),
            on(2023, 3, 31),
            on(2023, 4, 30),
        ],
    )
}

#[test]
fn a_hundred_rolls(rt: HostRuntime) -> Result<(), Fail> {
    let from = on(2000, 1, 1).day()?;
    let rolls = Bond {
        effective: from,
        maturity: on(2008, 4, 1).day()?,
        ..PLAIN
    }
    .terms()?
    .rolls()?;
    assert_eq!(rt; rolls.count(), 100);
    assert!(rt;
        Bond {
            effective: from,
            maturity: on(2008, 5, 1).day()?,
            ..PLAIN
        }
        .terms()?
        .rolls()
        .is_err()
    );
    assert!(rt;
        Bond {
            effective: from,
            maturity: on(2008, 4, 20).day()?,
            stub: 3,
            ..PLAIN
        }
        .terms()?
        .rolls()
        .is_ok()
    );
    assert!(rt;
        Bond {
            effective: from,
            maturity: on(2008, 4, 20).day()?,
            stub: 2,
            ..PLAIN
        }
        .terms()?
        .rolls()
        .is_err()
    );
    Ok(())
}

#[test]
fn fields_out_of_range(rt: HostRuntime) -> Result<(), Fail> {
    let from = on(2000, 1, 1).day()?;
    let to = on(2008, 1, 1).day()?;
    let good = Bond {
        effective: from,
        maturity: to,
        ..PLAIN
    };
    for bad in [
        Bond { number: 0, ..good },
        Bond {
            number: 1_000_000,
            ..good
        },
        Bond { months: 2, ..good },
        Bond { stub: 4, ..good },
        Bond { mark: 2, ..good },
        Bond { lag: 11, ..good },
        Bond { face: 0, ..good },
        Bond {
            face: 100_000_000_001,
            ..good
        },
        Bond {
            rate: 100_001,
            ..good
        },
    ] {
        assert!(rt; bad.terms().is_err());
    }
    assert!(rt;
        Bond {
            effective: Day(364),
            ..good
        }
        .terms()
        .is_err()
    );
    assert!(rt;
        Bond {
            maturity: Day(109_208),
            ..good
        }
        .terms()
        .is_err()
    );
    assert!(rt;
        Bond {
            maturity: from,
            ..good
        }
        .terms()
        .is_err()
    );
    Ok(())
}

#[test]
fn amounts(rt: HostRuntime) -> Result<(), Fail> {
    let terms = Bond {
        effective: on(2000, 1, 1).day()?,
        maturity: on(2008, 1, 1).day()?,
        ..PLAIN
    }
    .terms()?;
    assert_eq!(rt; terms.amount(180), 1);
    assert_eq!(rt; terms.amount(179), 0);
    assert_eq!(rt; terms.amount(36_000), 100);
    Ok(())
}
