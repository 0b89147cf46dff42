ghost use Rattle.std.specs.Prelude.{◌≡◌, length};
ghost use Rattle.std.specs.Bool.{then_some};
ghost use Rattle.machine.specs.Memory.{total_size};
ghost use Rattle.engine.specs.Fills.{is_within, filled_in};

use super::place::place;
use machine::Rule;

/// Writes bytes at an offset of a buffer; nothing comes of it, and nothing is written, where they do not lie in one.
/// Public only because crates divide the machine: the memory has the rule's size.
pub fn fill(
    rule: Rule<'_>,
    memory: &mut [u8],
    buffer: usize,
    offset: usize,
    bytes: &[u8],
) -> Option<()>
    requires memory { length memory.old ≡ total_size rule.table.now }
    ensures answer { result ≡ then_some (is_within rule.entry.table.now buffer offset (length bytes.now)) tt }
    ensures memory { memory.new ≡ filled_in rule.entry.table.now memory.old buffer offset bytes.now }
{
    let at = place(rule, buffer, offset, bytes.len())?;
    memory[at..at + bytes.len()].copy_from_slice(bytes);
    Some(())
}
