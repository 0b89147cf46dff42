ghost use Rattle.std.specs.Prelude.{◌≡◌, ◌+◌, ◌≤◌, ◌++◌, length, take, drop, nat_le};
ghost use Rattle.report.specs.Lines.{rows_text};
ghost use Rattle.report.specs.Printing.{output_after, printed};

use super::refusal::PrintRefusal;
use super::row::Row;

/// Prints a heading, and below it a line for each row, once it is known that all of it fits. No line is kept from the
/// count to the print: that would want room for all of them.
pub fn print<R: Row>(heading: &[u8], rows: &[R], output: &mut [u8]) -> Result<usize, PrintRefusal>
    ensures count { result ≡ printed (heading.now ++ rows_text R.Row.fields rows.now) output.old }
    ensures after { output.new ≡ output_after (heading.now ++ rows_text R.Row.fields rows.now) output.old }
{
    if !has_room(heading, rows, output.len()) {
        return Err(PrintRefusal::TooShort);
    }
    let mut at = put(output, 0, heading);
    for row in rows {
        let line = row.line();
        at = put(output, at, line.as_str().as_bytes());
    }
    Ok(at)
}

/// Whether the text has at most this many bytes. Its length may pass the largest number, so the room that is left is
/// counted down, and not the length up.
fn has_room<R: Row>(heading: &[u8], rows: &[R], room: usize) -> bool
    ensures { result ≡ nat_le (length (heading.now ++ rows_text R.Row.fields rows.now)) room }
{
    let Some(mut left) = room.checked_sub(heading.len()) else {
        return false;
    };
    for row in rows {
        let line = row.line();
        let Some(less) = left.checked_sub(line.as_str().len()) else {
            return false;
        };
        left = less;
    }
    true
}

/// Writes the bytes at a place, and answers the place behind them. The output is lent, so the place stands beside it.
fn put(output: &mut [u8], at: usize, bytes: &[u8]) -> usize
    requires { at + length bytes.now ≤ length output.old }
    ensures end { result ≡ at + length bytes.now }
    ensures front { take result output.new ≡ take at output.old ++ bytes.now }
    ensures back { drop result output.new ≡ drop result output.old }
{
    let end = at + bytes.len();
    output[at..end].copy_from_slice(bytes);
    end
}
