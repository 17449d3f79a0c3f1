use crate::bench::Bench;
use crate::sheets::program_sheet;
use faults::SheetFault;
use std::test::Fail;

#[test]
fn thirty_two_bonds(rt: HostRuntime) -> Result<(), Fail> {
    let mut bench = Bench::new(&rt, program_sheet()?);
    bench.fills()?;
    bench.refused(33, 2, SheetFault::SheetFull(33))?;
    bench.retires(17)?;
    bench.enters(999_999, 2)?;
    bench.refused(17, 2, SheetFault::SheetFull(17))?;
    Ok(())
}

#[test]
fn four_hundred_rolls(rt: HostRuntime) -> Result<(), Fail> {
    let mut bench = Bench::new(&rt, program_sheet()?);
    bench.enters(1, 100)?;
    bench.enters(2, 100)?;
    bench.enters(3, 100)?;
    bench.enters(4, 100)?;
    bench.refused(5, 2, SheetFault::SheetFull(5))?;
    bench.retires(2)?;
    bench.enters(6, 98)?;
    bench.refused(7, 3, SheetFault::SheetFull(7))?;
    bench.enters(8, 2)?;
    bench.refused(9, 2, SheetFault::SheetFull(9))?;
    bench.refused(9, 101, SheetFault::ManyRolls(9))?;
    Ok(())
}

#[test]
fn a_number_is_live_once(rt: HostRuntime) -> Result<(), Fail> {
    let mut bench = Bench::new(&rt, program_sheet()?);
    bench.not_live(5)?;
    bench.enters(5, 2)?;
    bench.refused(5, 3, SheetFault::Live(5))?;
    bench.not_live(0)?;
    bench.not_live(4)?;
    bench.not_live(6)?;
    bench.not_live(u64::MAX)?;
    bench.retires(5)?;
    bench.not_live(5)?;
    bench.enters(5, 3)?;
    Ok(())
}
