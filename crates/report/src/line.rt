ghost use Rattle.std.specs.Prelude.{◌≡◌, ◌+◌, ◌≤◌, ◌++◌, length};
ghost use Rattle.arrayvec.specs.ArrayString.{array_string_len};
ghost use Rattle.report.specs.Lines.{field_text, line_text};

use arrayvec::ArrayString;
use itoa::Buffer;

/// Room for the longest line: five numbers of twenty digits, and a byte behind each.
pub(crate) const LONGEST_LINE: usize = 105;

/// A line, in memory of a fixed size.
pub type Line = ArrayString<LONGEST_LINE>;

/// Appends a number, or a dash where there is none.
fn push_field(line: &mut Line, field: Option<u64>)
    requires { array_string_len line.old + 20 ≤ 105 }
    ensures text { line.new.bytes ≡ line.old.bytes ++ field_text field }
    ensures short { array_string_len line.new ≤ array_string_len line.old + 20 }
{
    match field {
        Some(number) => line.push_str(Buffer::new().format(number)),
        None => line.push_str("-"),
    }
}

/// The line of these fields.
pub fn line_of(fields: &[Option<u64>]) -> Line
    requires { length fields.now ≤ 5 }
    ensures { result.bytes ≡ line_text fields.now }
{
    let mut line = Line::new();
    if let [first, others @ ..] = fields {
        push_field(&mut line, *first);
        for field in others {
            line.push_str(" ");
            push_field(&mut line, *field);
        }
        line.push_str("\n");
    }
    line
}
