//! Holds the report to samples worked out by another program, `tools/reference.py`. Standard input has a line for each, its
//! name: of the files in `data/`, `NAME.in` is an input and `NAME.out` what has to be printed for it.

#![tactic(auto)]

use report::report;
use std::fs;

/// Whether the report on a sample is its expected text, whole.
fn is_as_expected(rt: &HostRuntime, sample: &str) -> anyhow::Result<bool> {
    let heap = rt.alloc();
    let input = fs::read(rt, format!(in heap; "{sample}.in")?)?;
    let expected = fs::read_to_string(rt, format!(in heap; "{sample}.out")?)?;
    let text = report(heap, input.as_slice())?;
    Ok(text.as_str() == expected.as_str())
}

fn main(rt: HostRuntime) -> anyhow::Result<()> {
    for line in rt.lines(rt.alloc()) {
        let sample = line?;
        let verdict = if is_as_expected(&rt, sample.as_str())? {
            "as expected"
        } else {
            "differs"
        };
        println!(rt; "{sample} {verdict}")?;
    }
    Ok(())
}
