//! Reads a rule text from standard input and says what came of it.

#![tactic(auto)]

use grammar::Refusal;
use input::fill;
use reader::read;
use rule::{MOST_BYTES, MOST_RECORDS, Record, Shape};
use std::io;

/// One byte more than a text may have: what lies beyond cannot matter.
const MOST: usize = MOST_BYTES + 1;

fn main(rt: HostRuntime) -> io::Result<()> {
    let mut buffer = [0u8; MOST];
    let len = fill(&rt, &mut buffer)?;
    let mut table = [Record::BLANK; MOST_RECORDS];
    match read(&buffer[..len], &mut table) {
        Ok(shape) => {
            let Shape {
                buffers,
                instructions,
            } = shape;
            println!(rt; "buffers instructions\n{buffers} {instructions}")
        }
        Err(fault) => {
            let Refusal {
                number,
                line,
                place,
                layer,
            } = fault.refusal();
            println!(rt; "number line place layer\n{number} {line} {place} {layer}")
        }
    }
}
