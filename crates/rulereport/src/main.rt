//! Reads a rule text from standard input and prints what is told of it.
#![tactic(auto)]

use answer::{LONGEST, answer};
use input::fill;
use rule::MOST_BYTES;
use std::io;
use std::io::Write;

/// One byte more than a text may have: what lies beyond cannot matter.
const MOST: usize = MOST_BYTES + 1;

fn main(rt: HostRuntime) -> io::Result<()> {
    let mut text = [0u8; MOST];
    let len = fill(&rt, &mut text)?;
    let mut output = [0u8; LONGEST];
    match answer(&text[..len], &mut output) {
        Ok(count) => rt.stdout().write_all(&output[..count]),
        // no answer is longer than the output
        Err(_) => Ok(()),
    }
}
