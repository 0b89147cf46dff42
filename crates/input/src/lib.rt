//! What a program is given to read, in a buffer of a fixed size.
#![tactic(auto)]

ghost use Rattle.std.specs.Prelude.{◌≤◌, length, IfOk};

use std::io;
use std::io::Read;

/// Fills the buffer from standard input, as far as that goes, and says how far.
pub fn fill(rt: &HostRuntime, buffer: &mut [u8]) -> io::Result<usize>
    ensures { IfOk result (λ n. n ≤ length buffer.old) }
{
    let mut input = rt.stdin();
    let mut len = 0;
    // a file may come in any number of parts, and there is no heap to gather them by `read_to_end`; each turn but the last
    // reads a byte or more
    for _ in 0..buffer.len() {
        let n = input.read(&mut buffer[len..])?;
        if n == 0 {
            break;
        }
        len += n;
    }
    Ok(len)
}
