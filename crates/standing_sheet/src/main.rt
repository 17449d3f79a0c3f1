//! Reads standard input whole, and prints the report on it.

#![tactic(auto)]

use report::{LONGEST_INPUT, report};
use std::alloc::AllocError;
use std::io;
use std::io::Read;

/// One byte more than an input may have, so that a longer one shows.
// `as`: no `From` makes a u64 of a usize.
const READ_AT_MOST: u64 = LONGEST_INPUT as u64 + 1;

/// Why the program ends without its report.
#[derive(Debug, Drop)]
enum Stop {
    NoMemory,
    Io(io::Error),
}

impl From<AllocError> for Stop {
    fn from(_error: AllocError) -> Stop {
        Stop::NoMemory
    }
}

impl From<io::Error> for Stop {
    fn from(error: io::Error) -> Stop {
        Stop::Io(error)
    }
}

fn main(rt: HostRuntime) -> Result<(), Stop> {
    let heap = rt.alloc();
    let mut input = Vec::new(heap);
    rt.stdin().take(READ_AT_MOST).read_to_end(&mut input)?;
    let text = report(heap, input.as_slice())?;
    print!(rt; "{text}")?;
    Ok(())
}
