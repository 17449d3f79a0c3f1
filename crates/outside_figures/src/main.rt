//! Works out dates that other programs have worked out too. Standard input has a line for each: `A DATE` asks for the date's
//! adjusted days under F, P and M over TARGET's closing days, `S MONTHS STUB MARK EFFECTIVE MATURITY` for unadjusted rolls.
//! The files `stdin` and `stdout` beside `src` are from outside, by QuantLib 1.29: 250 schedules, and the dates of its 600
//! adjusted ones that conventions serve (up to 2198).

#![tactic(auto)]

mod asked;

use asked::answer;

fn main(rt: HostRuntime) -> anyhow::Result<()> {
    let heap = rt.alloc();
    for line in rt.lines(heap) {
        let line = line?;
        let text = answer(heap, line.as_str())?;
        println!(rt; "{text}")?;
    }
    Ok(())
}
